//! What the arithmetic and the comparisons of RV32I give.
//!
//! Stands on `rv_insn`; the machines call it. Proved: each result is that of `specs/Alu.antt`. Only tested, by the
//! cases of `cfi_cases`: that those results are the manual's, at border operands. Open: nothing.
#![tactic(auto)]

mod alu;

pub use alu::{imm_op_value, is_taken, op_value};
