//! The names of a source: where each is defined, and its symbol.
//!
//! Stands on `elf_read`. Proved: a table of names has each name once, in the order in which they first occur, with its
//! first definition, as `specs/Names.antt` has it; symbols are local ones first. Only tested: nothing. Open: nothing.
#![tactic(auto)]

mod names;

pub use names::{Definition, Entry, Names};
