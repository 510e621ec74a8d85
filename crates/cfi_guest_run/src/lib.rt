//! Guests with their passes and slips, and how they are served and run to their end, each on a thread of its own.
//!
//! Stands on `cfi_loader`, `cfi_runner`, `cfi_guest_part` and the gate of `cfi_io`. Proved: the type of a runner keeps
//! that its guest is where the raw machine is after what its pass has loaded and what its opens were answered, and that
//! its log fits what the pass has settled, and that its slip says the lines of its logged opens; `serve` keeps it, with
//! the answer that an open is to get, and `drive` until the guest has stopped; what a run concludes has a valid report,
//! tells how each guest has run, and its journal's lines in a guest's name are those of the guest's logged opens. Only
//! tested: nothing. Open: nothing; `cfi_engine` runs a plan over it.
#![tactic(auto)]

mod causes;
mod concluded;
pub mod laws;
mod lines;
mod runner;
mod serving;

pub use concluded::{Concluded, conclude};
pub use runner::{Runner, drive};
pub use serving::serve;
