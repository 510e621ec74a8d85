//! Lines of plans are what is written for them.
//!
//! Stands on `cfi_word`, `cfi_text` and `cfi_plan`. Proved: the words that a line of a plan is read of are those, and those
//! alone, that `specs/Written.antt` has for it. Only tested: nothing. Open: nothing.
#![tactic(auto)]

pub mod laws;
