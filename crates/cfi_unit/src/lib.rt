//! The units of instrumented code, the words that spell them, and what machines that run units log and are answered.
//!
//! Stands on `rv_insn`, `cfi_values` and `cfi_word`. Proved: `next_unit` and `spell` are the spellings of
//! `specs/Unit.antt` both ways, a list of words is the code of at most one list of units, and `read_units` gives them
//! or the word at which reading stops, by `specs/Spots.antt`. Only tested, by `cfi_calls` and the cases of `cfi_cases`:
//! the spellings against an assembler. Open: nothing.
#![tactic(auto)]

mod check;
mod fill;
mod free;
pub mod laws;
mod log;
mod masked;
mod reader;
mod reading;
mod spelling;
mod spot;
mod unit;

pub use fill::{Answer, Fill};
pub use log::{Log, Stop};
pub use reader::next_unit;
pub use reading::{ReadFault, read_units};
pub use spelling::spell;
pub use spot::Spot;
pub use unit::{FREE_REGISTERS, Unit};
