//! The instructions of RV32I, and the words that spell them.
//!
//! Stands on nothing. Proved: `decode` and `encode` are the table of `specs/Insn.antt` both ways, and each reader of
//! `fields` says what it read. Only tested, by the cases of `cfi_cases`, which assemble, list and run each row: that
//! the table is the manual's. Open: nothing.
#![tactic(auto)]

mod decoder;
mod encoder;
pub mod fields;
mod insn;
pub mod laws;
pub mod opcode;
pub mod rows;

pub use decoder::decode;
pub use encoder::encode;
pub use insn::{Cond, ImmOp, Insn, LoadKind, Op, StoreKind};
