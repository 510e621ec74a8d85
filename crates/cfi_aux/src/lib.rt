//! The records of functions and branches that a module carries, modules, and placed modules.
//!
//! Stands on `elf_read`, `cfi_type_table`, `cfi_values` and `thiserror`. Proved: records are read exactly where the
//! bytes are their spelling in one of three versions, and each other list of bytes has its first fault; what is
//! written, in each version, is read again, and the third is written exactly where a branch is an import; an object is
//! a module exactly where its two sections are a type table and records, with cells within its data; what is read of a
//! file is a sound object; which functions are global, and what a module exports. Only tested, by the cases of
//! `cfi_cases`: the texts of faults, and that ample memory is enough. Open: nothing.
#![tactic(auto)]

mod branch;
mod copies;
mod fault;
mod format;
mod function;
mod laws;
mod modules;
mod name;
mod placed;
mod reading;
mod records;
mod sections;
mod version;
mod word;
mod writing;

pub use copies::{copied_branches, copied_bytes, copied_name, copied_placed};
pub use fault::AuxFault;
pub use format::{CALL, IMPORT, RETURN, SWITCH, TAIL};
pub use laws::{some_object_is_sound, what_is_read_is_sound};
pub use modules::Module;
pub use placed::{Placed, PlacedFunction, address_of, exports, is_global};
pub use reading::read_records;
pub use records::{Function, Kind, Records};
pub use sections::module_of;
pub use version::{LATEST, RecordVersion};
pub use writing::{read_can_be_written, write_records, written_is_read};
