//! Modules linked into one: joined in order, with one definition of each name.
//!
//! Stands on `cfi_place`, `rv_reloc`, `rv_words`, `cfi_aux`, `cfi_unit`, `cfi_values`, `elf_read`, `cfi_type_table` and
//! `thiserror`. Proved: `link` answers exactly what `specs/Linked.antt` says, or the first fault, and what it answers
//! breaks no rule of modules. Only tested, by the cases of `cfi_cases`: that ample memory is enough, and words against
//! an assembler. Open: when memory runs out.
#![tactic(auto)]

mod applied;
mod chosen;
mod fault;
mod joined;
mod kept;
pub mod laws;
mod limits;
mod linked;
mod numbers;
mod reach;
mod records;
mod settled;
mod shift;
mod start;
mod texts;

pub use fault::LinkFault;
pub use linked::link;
