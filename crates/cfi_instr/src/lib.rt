//! The instrumenter: a module whose accesses are masked and whose indirect jumps are checked.
//!
//! Its input is the items of a module's text, each one instruction, or an AUIPC and JALR pair under one relocation.
//! Stands on `cfi_unit`, `cfi_aux`, `cfi_type_table`, `cfi_values`, `cfi_word`, `elf_read`, `rv_insn`, `rv_reloc`,
//! `rv_words` and `thiserror`. Proved: `read_items` gives what is read of the text exactly where no row of
//! `specs/Fault.antt` has a fault, and else the first fault; `instrument` gives the module of `specs/Output.antt`,
//! whose long branches are the least set that is enough, or the first fault. Only tested, by the cases of `cfi_cases`:
//! that ample memory is enough, and words against an assembler. Open: when memory runs out, and the texts of faults.
#![tactic(auto)]

mod arrangement;
mod check;
mod ends;
mod fault;
mod functions;
mod home;
mod hops;
pub mod insns;
mod items;
mod jumps;
mod misplaced;
mod moves;
mod output;
mod reach;
mod records;
mod sizes;
mod source;
mod stray;
mod stretch;
mod target;
mod text;
mod units;
mod words;

pub use fault::InstrFault;
pub use output::instrument;
