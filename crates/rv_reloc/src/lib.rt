//! Relocations of RISC-V: the field of one, filled with its value.
//!
//! Stands on `rv_insn`, `elf_read` and `thiserror`. Proved: `apply` writes exactly what `specs/Applied.antt` says, or
//! refuses for its first fault and writes nothing. Only tested: the words against GNU ld, by `cfi_calls`; the cases of
//! `cfi_cases` show jumps, branches and each fault. Open: the texts of faults.
#![tactic(auto)]

mod applied;
mod bytes;
mod fault;
mod field;
mod form;
mod formula;
mod table;

pub use applied::apply;
pub use bytes::word_at;
pub use fault::RelocFault;
pub use formula::displacement;
