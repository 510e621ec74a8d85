//! Stubs for the functions that a module calls and that may come later, and the limits on one object.
//!
//! Stands on `cfi_word`, `cfi_aux`, `cfi_type_table`, `cfi_values`, `elf_read`, `rv_insn` and `thiserror`. Proved:
//! `passed` answers the first limit that sizes pass, by `specs/Limit.antt`, and `sizes_of` how much a module has;
//! `with_stubs` answers exactly the module of `specs/Stubbed.antt`, or the first limit on one object that this module
//! passes; what it answers breaks no rule of modules. Only tested, by the cases of `cfi_cases`: that ample memory is
//! enough, and words against an assembler. Open: when memory runs out.
#![tactic(auto)]

mod copies;
mod fault;
mod imports;
mod limit;
mod object_sizes;
mod records;
mod relocs;
mod sizes;
mod start;
mod stubbed;
mod symbols;
mod texts;

pub use fault::StubFault;
pub use stubbed::with_stubs;
