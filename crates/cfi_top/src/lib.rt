//! The program as one public call: `top` takes the words, a shelf, a sink and a gate. `serve` is the part of it that
//! waits for nobody: all commands but `run` and `gen`. `traced` is that of a second program, which tells a schedule
//! event by event.
//!
//! Stands on `cfi_request`, `cfi_commands`, `cfi_gen`, `cfi_engine`, `cfi_sim`, `cfi_judge`, `cfi_bare`, `cfi_plan`,
//! `cfi_report` and what these stand on; `cfi` and `cfi_trace` call it. Proved: what is reported of a run was concluded,
//! of the plan and the modules that the file says, or of those that are drawn of the seed, and is valid; a report is
//! judged valid exactly where it is, so the report of a run is, if it is short enough to be read; what is printed of a
//! simulation is the text of a valid one; what is listed is the listing of the object's text, what is said of a plan
//! the stated text of its modules; what is saved is the written object that the source or the modules make; the
//! headline, promise by promise, of each guest of a run that was concluded; each status and its text, with its cause;
//! that valid input gives 0 or 6; which files stay. Only tested, by the cases of `cfi_cases`: that memory is there
//! where it is asked for. Open: nothing.
#![tactic(auto)]

mod answer;
mod generating;
pub mod headline;
mod judging;
pub mod laws;
mod plans;
mod program;
mod ready;
mod refused;
mod running;
mod tracing;
mod work;

pub use cfi_request::{DONE, MEMORY, NO_FILE, READ_FAULT, REFUSED, USAGE, WRITE_FAULT};
pub use program::{Ended, Served, serve, top};
pub use tracing::traced;
pub use work::Ready;
