//! Simulations: what a schedule makes of a plan and its modules, line by line.
//!
//! Stands on `cfi_world`, which makes the events, `cfi_ledger`, which opens plans, loads modules and fills guests,
//! `cfi_plan`, `cfi_report`, `rv_text` and `cfi_text`, for what a valid simulation is on `cfi_valid`, and for the parts
//! of guests on `cfi_guest_part`, with what these stand on. Proved: what a schedule makes is a valid simulation, and
//! where there is none, the fault is the first: of opening the plan, or the first line that leads nowhere; a line of a
//! schedule is read exactly, with the guests and modules that it names; a simulation is one, and is written as its one
//! text; a schedule goes event by event, and its journal is legal; a trace is one, and tells each event of a guest as
//! it is made, by `specs/Step.antt`. Only tested, by the program `cfi_trace`: that the lines of a check are those of
//! its unit. Open: that memory suffices.
#![tactic(auto)]

mod aim;
mod did;
mod fault;
mod found;
pub mod laws;
mod limits;
mod line;
mod opening;
mod opens;
mod pending;
mod report;
mod seen;
mod simulation;
mod span;
mod standing;
mod step;
mod step_line;
mod told;
pub mod trace_laws;
mod tracing;
mod word;
mod writer;

pub use aim::Aim;
pub use cfi_ledger::OpenFault;
pub use fault::SimFault;
pub use found::Found;
pub use limits::{MAX_EVENTS, MAX_UPDATES, NOT_LOADED};
pub use line::{Line, read_line};
pub use report::SimReport;
pub use simulation::simulate;
pub use tracing::trace;
pub use writer::write_sim;
