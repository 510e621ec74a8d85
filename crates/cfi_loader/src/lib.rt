//! The live loader: the value under the lock that guests and a script share.
//!
//! Stands on `cfi_tables`, `cfi_slips`, `cfi_modules`, `cfi_valid` and what these stand on. Proved: a plan is started
//! exactly as its opening state says, or refused by its first fault; the type of a loader keeps that the journal is
//! legal line by line, that the tables' history and refusals are what the journal tells, with marks that name who
//! asked, that each entry's image has the code of the modules which its policy finds loaded and the labels of those that
//! are live under it, and that the script's lines are those of its calls before the one that is due
//! (`specs/Ledger.antt`); each load, each refresh and each retirement adds the one line that its answer tells
//! (`specs/Told.antt`, `specs/Results.antt`, `specs/Retirements.antt`), and a refusal leaves tables, code and modules as
//! they were; the image that a load puts in force keeps the class numbers of the one before; a line is told in a
//! guest's name by its slip alone, which says these lines in order; a load and a retirement that fit are made, or no
//! version or no epoch is left; an answer to an open brings the data that the guest lacks, and then the cells of all
//! loaded modules, with what names mean among the live ones. Only tested: nothing. Open: that memory suffices; what a
//! load or a retirement costs.
#![tactic(auto)]

mod fault;
mod give;
pub mod laws;
mod load;
mod loaded;
mod loader;
mod mark;
mod passes;
mod reading;
mod refresh;
mod retire;
mod start;
mod telling;
mod told;

pub use cfi_ledger::{Due, OpenFault, StartFault};
pub use cfi_plan::{Entry, JournalLine, ModuleLine, Who};
pub use cfi_slips::{Slip, SlipsName};
pub use cfi_tables::{AdmitFault, Seen, UpdateFault};
pub use fault::LoadFault;
pub use loaded::Loaded;
pub use loader::{Loader, LoaderName};
pub use retire::{RetireFault, Retired};
pub use start::Start;
