//! What holds at every moment of a run, as laws: where a guest stands and stores, and which policy is in force while a
//! check tries.
//!
//! Stands on `cfi_model`; a crate of laws alone. Proved: a guest that was opened at a start is at every moment in a
//! unit that it has entered at its start, and stores in its own data alone, whatever words of a history and answers
//! come to it; while a check loads two words of one epoch, that epoch and its policy are in force. Only tested:
//! nothing. Open: nothing.
#![tactic(auto)]

pub mod laws;
