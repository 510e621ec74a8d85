//! What a report says of a guest, and that it is a valid part where the guest has run.
//!
//! Stands on `cfi_model`, `rv_guest`, `cfi_report` and `cfi_valid`; `cfi_guest_run` and `cfi_sim` stand on it. Proved:
//! a part says the guest's own number, log, output, stop, units and steps; a guest that has run over a history whose
//! images are those of a course's policies has a valid part, and shows the policy machine, unit by unit. Only tested:
//! nothing. Open: nothing.
#![tactic(auto)]

pub mod laws;
mod part;

pub use part::part_of;
