//! Modules placed one after the other, each at the next free place and verified against those before it.
//!
//! Stands on `cfi_place`, `cfi_verify`, `cfi_graph`, `cfi_policy`, `cfi_model` and what these stand on. Proved: a
//! series takes a module exactly where it places and verifies behind those that it has, and else says the module's
//! first fault and stays as it was, and tells the same without taking it; modules that were loaded at the next free
//! places, each verified against some of those before it, are shaped, each image of them is closed, and the images of a
//! growing list of them are a history; the modules of a series have a graph and an image, which is made with its
//! classes in order; the cells of their imports are made and lie inside private data; a load has two steps, of which
//! the second takes no memory; a module that was taken back is taken again as it was placed; the Global function of a
//! name is found; why a module does not join is one fault, told by its numbers; some places and entries, by hand. Only
//! tested: that ample memory is enough. Open: when memory runs out.
#![tactic(auto)]

mod entry;
mod examples;
mod fault;
mod index;
mod joining;
mod laws;
mod names;
mod numbers;
mod prepared;
mod room;
mod series;

pub use entry::{entry_in, first_global};
pub use examples::places_by_hand;
pub use fault::JoinFault;
pub use laws::{
    live_have_images, loaded_are_shaped, loaded_have_closed_images, loaded_have_entries,
    loaded_have_image, loaded_have_starts, loaded_make_a_history, one_answer,
    series_are_closed_below, series_are_loaded, series_have_cells, series_have_graph,
    some_module_can_be_taken, some_modules_are_loaded, some_modules_make_a_history,
    some_series_has_a_module,
};
pub use numbers::{FaultNumbers, join_faults_have_numbers};
pub use prepared::{Prepared, Refused};
pub use series::Series;
