//! The outside of the program: a shelf of files, a sink for its text, and a gate between its steps.
//!
//! Stands on `cfi_values`, `cfi_word` and `thiserror`. Proved: the clauses of the traits at the objects in memory and
//! at the edge, and what the objects in memory hold. Only tested, by `cfi_calls` and `.ci/saves`: that the edge reaches
//! real files and standard output, and what a save leaves. Open: what those hold, since the edge tells no content.
#![tactic(auto)]

mod count;
mod dir_shelf;
mod fault;
mod gate;
mod mem_shelf;
mod mem_sink;
mod pipe;
mod saving;
mod shelf;
mod sink;
mod std_sink;
mod undone;

pub use dir_shelf::DirShelf;
pub use fault::{ShelfFault, SinkFault};
pub use gate::{Gate, QuietGate};
pub use mem_shelf::MemShelf;
pub use mem_sink::MemSink;
pub use shelf::Shelf;
pub use sink::Sink;
pub use std_sink::StdSink;
pub use undone::Undone;
