//! Modules at their places in the code and the data: addresses, relocations, slots of checks.
//!
//! Stands on `rv_reloc`, `cfi_aux`, `cfi_unit`, `cfi_values`, `elf_read`, `cfi_type_table`, `cfi_word`, `rv_insn` and
//! `thiserror`. Proved: `place` answers exactly what `specs/Placed.antt` says, or the first fault. Only tested, by the
//! cases of `cfi_cases`: that ample memory is enough, and words against an assembler. Open: when memory runs out.
#![tactic(auto)]

mod bytes;
mod defined;
mod fault;
mod functions;
mod partner;
mod placed;
mod relocated;
mod room;
mod sizes;
mod slots;
mod symbols;
mod value;
mod words;

pub use fault::PlaceFault;
pub use placed::place;
pub use room::Room;
pub use symbols::Symbols;
pub use words::{placed_words, words_of};
