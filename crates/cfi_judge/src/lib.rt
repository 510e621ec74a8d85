//! The judge of reports: whether a report is a valid one of a plan and its modules, and else the first part that fails.
//!
//! Stands on `cfi_valid`, whose definitions it decides, on `cfi_ledger`, which has the loaded modules, on
//! `cfi_labels` and `cfi_replay`, which replay guests, and on what these stand on. Proved: a report is taken exactly
//! where it is valid, and else refused with the first part that fails, in the order of `JudgeFault`, and the least
//! line or guest in it: the modules, legal or not, each placed at the next free place until one does not fit its
//! line; the journal, line by line from the start modules on; the script; the guests, against the start modules; the
//! log of each guest, with all causes of its opens, against what each module of the plan meets behind those that each
//! policy finds loaded, beside those that are live; the replay of each guest, which is made at most once; and its
//! steps. The parts up to the guests are also told alone, and the steps of a guest. Only tested: nothing. Open: the
//! texts of faults; that memory suffices.
#![tactic(auto)]

mod causes;
mod entries;
mod fault;
mod guests;
mod journal;
mod judged;
pub mod laws;
mod leaving;
mod lines;
mod log;
mod meeting;
mod modules;
mod next;
mod reached;
mod rows;
mod runs;
mod script;
mod span;
mod steps;
mod trial;

pub use fault::{JournalFault, JudgeFault};
pub use guests::has_guests;
pub use journal::journal_end;
pub use judged::judge;
pub use modules::has_modules;
pub use reached::Reached;
pub use script::has_script;
pub use steps::has_steps;
