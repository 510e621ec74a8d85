//! Bare files: the words of one function, and the module that they are.
//!
//! Stands on `cfi_aux`, `cfi_type_table`, `cfi_values`, `elf_read`, `cfi_word` and `thiserror`, and for what is proved
//! of the module on `cfi_modules` and what that stands on; `cfi_top` calls it. Proved: whole words are exactly the
//! stated module, which can be placed, and other bytes are refused. Only tested, by the cases of `cfi_cases`: that
//! memory is there where it is asked for. Open: nothing.
#![tactic(auto)]

mod fault;
mod file;
pub mod laws;
mod modules;

pub use fault::BareFault;
pub use file::read_bare;
pub use modules::FUNCTION_TYPE;
