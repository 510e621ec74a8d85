//! A plan run from its start to its report: guests on threads of their own, beside the script.
//!
//! Stands on `cfi_guest_run`, whose runners and conclusion it hands on, `cfi_loader`, `cfi_tables` and what these stand
//! on. Proved: what is concluded is valid for the plan and the modules, and a plan that cannot be opened is refused by
//! its first fault. Only tested: nothing. Open: nothing.
#![tactic(auto)]

mod fault;
mod guests;
mod run;
mod script;

pub use cfi_guest_run::{Concluded, Runner, conclude, drive, serve};
pub use fault::RunFault;
pub use guests::open_guests;
pub use run::run_plan;
