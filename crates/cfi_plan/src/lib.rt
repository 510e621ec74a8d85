//! Plans: what a run is to do, the lines that its script and its guests give the journal, and where modules lie.
//!
//! Stands on `cfi_text`, `cfi_values`, `cfi_word` and `thiserror`. Proved: `read_plan` gives exactly the plan that a text
//! says, or exactly its first fault, and what it gives is within the limits. Only tested, by the cases of `cfi_cases`:
//! the texts of faults, and that memory suffices. Open: nothing.
#![tactic(auto)]

mod bare;
mod draft;
mod fault;
mod index;
mod journal;
mod line;
mod plan;
mod reading;

pub use bare::bare_plan;
pub use fault::PlanFault;
pub use journal::{Entry, JournalLine, ModuleLine, Who};
pub use plan::{Plan, PlanModule, ScriptLine};
pub use reading::read_plan;
