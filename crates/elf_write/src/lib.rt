//! Writes ELF32 relocatable files for RISC-V.
//!
//! Stands on `elf_read`, and in its proofs on `byteorder`; what makes object files stands on it. Proved: the bytes are
//! exactly those of `specs/File.antt`, section by section; objects within the limits can be written; and what is written
//! of an object that a file can be (`specs/Whole.antt`) is read again. Only tested, by the cases of `cfi_cases`: that
//! ample memory is enough, and that GNU readelf takes such a file. Open: when memory runs out.
#![tactic(auto)]

mod contents;
mod file;
pub mod laws;
mod limits;
mod part;
mod word;

pub use crate::file::write_object;
pub use crate::limits::{MAX_RECORDS, MAX_TYPES};
