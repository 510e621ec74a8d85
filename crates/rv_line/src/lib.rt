//! The assembler's sources, line by line.
//!
//! Stands on `rv_insn`, `rv_text`, `cfi_values`, `cfi_text` and `elf_read`. Proved: `read_line` gives the line that bytes
//! say, exactly as `specs/Line.antt` has it; each register is read of the name of its use, as `specs/Abi.antt` lists
//! these. Only tested: nothing; cases of `cfi_cases` show lines of each form. Open: nothing.
#![tactic(auto)]

mod directives;
mod immediate;
mod insn;
mod keyword;
pub mod laws;
mod line;
mod number;
mod operand;
mod register;
mod short;
mod statement;
mod table;
mod target;

pub use line::{Line, read_line};
pub use register::Register;
pub use statement::{Datum, High, Low, NodeKind, Statement, Target};
