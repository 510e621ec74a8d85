//! Which types of several tables are equal.
//!
//! Stands on `cfi_type_table` and `cfi_word`. Proved: two nodes have one class exactly where their unfoldings agree to
//! every depth; where a book grows by a table, its nodes get the numbers of the longer book's classes, and those that
//! stand keep theirs. Only tested, by `cfi_calls`: that ample memory is enough. Open: nothing.
#![tactic(auto)]

mod book;
mod classes;
mod digest;
mod dividing;
mod extending;
mod graph;
mod hits;
mod leader;
mod linked;
mod lists;
mod near;
mod numbering;
mod parents;
mod partition;
mod plan;
mod refining;
mod sifting;
mod splitting;
mod still;

pub use book::TypeBook;
pub use cfi_type_table::{
    ARRAY, FUNC, INT, PTR, REAL, STRUCT, TypeFault, TypeNode, TypeTable, UNION, VARFUNC, VOID,
    read_can_be_written, read_types, split_word, write_types, written_is_read,
};
pub use classes::Classes;
