//! A world: the shared tables and the guests of the raw machine, changed by one event at a time.
//!
//! Stands on `cfi_model`, `rv_guest`, `cfi_unit` and `cfi_word`. Proved: each turn is that of `specs/Turns.antt`, and
//! the laws over every list of events. Open: nothing.
#![tactic(auto)]

mod event;
pub mod laws;
mod seat;
mod stores;
mod tables;
mod world;

pub use cfi_model::{Answer, Phase};
pub use event::{Event, Turned};
pub use world::World;
