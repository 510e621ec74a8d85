//! The books of a run: what a plan's loads and opens come to, whatever keeps the tables.
//!
//! Stands on `cfi_modules`, which places and verifies modules, on `cfi_valid`, in whose words it speaks, and on what
//! these stand on; `cfi_loader` and `cfi_sim` stand on it. Proved: the start modules and the first fault of opening a
//! plan are exactly those of its opening; a module joins those that are loaded with the line that a report says of it,
//! with its data and with the cells of all, and may be taken back, or is placed first and taken later; the book of the
//! live ones with it keeps class numbers; a module is retired with the book and the cells of the others, or stays;
//! which module jumps into one; what is known of a module without trying it was found of it under the same policy; the
//! journal has room for each line that the script can still add; a load, a retirement and a refresh are put in force
//! with their lines; a guest of an entry begins where the start modules say. Only tested: nothing. Open: that memory
//! suffices.
#![tactic(auto)]

mod book;
mod books;
mod candidate;
mod copies;
mod departure;
mod due;
mod entrant;
mod entries;
mod fault;
mod fills;
mod finding;
mod force;
mod journal;
mod offer;
mod opening;
mod opens;
mod prospect;
mod retiring;
mod roster;
mod telling;
mod user;

pub use books::Books;
pub use candidate::Candidate;
pub use departure::Departure;
pub use due::Due;
pub use entrant::Entrant;
pub use entries::entry_at;
pub use fault::{OpenFault, StartFault};
pub use finding::{Finding, Known, Outcome};
pub use force::Force;
pub use journal::Journal;
pub use offer::Offer;
pub use opening::{open_modules, start_modules};
pub use opens::open_answer;
pub use prospect::Prospect;
pub use roster::{Roster, Unjoined};
pub use telling::join_line;
