//! The shared tables on atomic words: a keeper updates them, and passes load them, each in a thread of its own.
//!
//! Stands on `cfi_model`, `cfi_word` and the kit's `atomic_table`. Proved: at every moment the words show the tables of
//! the keeper's view (`specs/Rule.antt`); each load and fetch answers its own step's word, one of the history, with the
//! bounds on its epoch, and in each try equal versions are equal epochs; an update adds one entry, in the order code,
//! Tary, EPOCH, Bary, or is refused by a QUIET word that it has loaded, and stores nothing; a guest that is parked
//! refuses none; what a pass has seen is a beginning of what the keeper has; each step is one event on what is shared,
//! as `cfi_model` defines events. Tested in `cfi_threads`: two guests load and fetch beside 100 updates, a guest fetches
//! beside an update that adds code, and one without quiescent points hinders an update. Open: nothing.
#![tactic(auto)]

mod admission;
mod blank;
mod code;
mod fault;
mod holding;
mod keeper;
mod laws;
mod rule;
mod stamp;
mod stores;
mod tables;
mod view;

pub use blank::{Blank, Place, Words};
pub use fault::{AdmitFault, UpdateFault};
pub use keeper::{Keeper, Seen};
pub use laws::{some_tables_are_kept, steps_are_events, words_show_tables};
pub use rule::{Asks, Law, TableName};
pub use tables::{Pass, Tables};
pub use view::{KeeperView, PassView, Quiets, Sight, Told, View};
