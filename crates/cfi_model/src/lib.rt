//! The policy machine, which runs code unit by unit, and the states and steps of the raw machine.
//!
//! Stands on `cfi_unit`, `cfi_word`, `rv_insn` and `rv_alu`. Proved: `Plain` is the machine of `specs/Effect.antt`, and
//! private data, log and output are what `specs/` says; over a closed image the raw machine shows the policy machine
//! (`raw_shows_policy`); some image is closed. Tested, by `cfi_calls` and `cfi_cases`: each kind of unit, by the
//! manual. Open: nothing.
#![tactic(auto)]

mod accesses;
mod act;
mod data;
mod history;
pub mod laws;
mod log_book;
mod output;
mod pages;
mod phase;
mod plain;
mod quiet;
mod shows;
mod step;
mod words;

pub use accesses::accesses_are_taken;
pub use act::{Act, Wait};
pub use cfi_unit::{Answer, Fill, Log, Stop};
pub use data::{load_width, store_width};
pub use history::{Access, Entry, Moment, Refusal};
pub use log_book::LogBook;
pub use output::Output;
pub use pages::{PAGE_BYTES, PAGES, PrivateData};
pub use phase::Phase;
pub use plain::Plain;
pub use quiet::{PARKED, Point, Quiet};
pub use shows::{a_guest_runs, an_opened_guest_shows, raw_shows_policy};
pub use step::PlainStep;
pub use words::{
    epoch_tells_force, opened_tables_are_tables, phases_tell_words, tables_have_a_history,
};
