//! Type tables: reading and writing.
//!
//! Stands on `cfi_values`, `cfi_word` and `thiserror`. Proved: a table is read exactly where the bytes are its one
//! spelling, each other list of bytes has its first fault; what is written is read again. Only tested, by the cases of
//! `cfi_cases`: the texts of faults. Open: nothing.
#![tactic(auto)]

mod fault;
mod kind;
mod node;
mod reading;
mod table;
mod writing;

pub use fault::TypeFault;
pub use kind::{ARRAY, FUNC, INT, PTR, REAL, STRUCT, UNION, VARFUNC, VOID, is_callable_kind};
pub use node::TypeNode;
pub use reading::{read_types, split_word};
pub use table::TypeTable;
pub use writing::{read_can_be_written, write_types, written_is_read};
