//! What a valid report of a plan and its modules is, as definitions: its modules, the journal line by line, the script,
//! where guests begin, the replay of the policy machine over their logs, these logs, and their steps.
//!
//! Stands on `cfi_modules`, `cfi_policy` and what is below them for places and policies, `cfi_model` for the policy
//! machine, `cfi_plan` and `cfi_report` for what a plan and a report say, and `cfi_bare` for the module of the
//! example. Proved, as laws: a journal leads to one state, and its lines tell of one list of modules; valid reports of
//! one journal agree in all that a guest's log tells; what was logged stays true while the journal goes on; a replay
//! goes on unit by unit; the classes of an image are its policy; the reports of a bare file, of a load, and of three
//! modules with tables in their data are valid; the first two, changed in one thing, are not. Only tested: nothing.
//! Open: nothing.
#![tactic(auto)]

mod causes;
pub mod laws;
mod limits;
pub mod refusals;
mod retirement;

pub use causes::{EPOCHS_SPENT, MODULES_FULL, NOT_PLACED, NOT_VERIFIED, RETIRED, VERSIONS_SPENT};
pub use limits::MAX_LOADED;
pub use retirement::Retirement;
