//! The raw machine: a guest that runs RV32I word by word, with the loads of table words and the services left to
//! others.
//!
//! Stands on `cfi_model`, whose definitions it meets, and on `cfi_unit`, `cfi_word`, `rv_insn` and `rv_alu`. Proved:
//! each call leaves the guest as `specs/Begin.antt` and `specs/Run.antt` of `cfi_model` say. Tested, by `cfi_calls` and
//! `cfi_cases`: each instruction at border operands, checks and services, by the manual. Open: nothing.
#![tactic(auto)]

mod decode;
mod guest;
pub mod laws;
mod registers;

pub use cfi_model::{Act, Answer, Fill, Log, Stop, Wait};
pub use guest::Guest;
