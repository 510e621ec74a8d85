//! A guest of the raw machine over the shared tables: all that it is given is loaded by its pass.
//!
//! Stands on `cfi_tables`, `cfi_model` and `rv_guest`. Proved: `run_until` leaves the guest where the raw machine is
//! over the words that this call has loaded, and answers exactly where it asks for a service or has stopped; over the
//! history that its pass has seen it shows the policy machine; what a call that ends in a service hands on is what the
//! next one asks for, and two calls are one run. Tested in `cfi_threads`: beside updates on another thread; each fuel and
//! each pause. Open: nothing.
#![tactic(auto)]

pub mod laws;
mod pause;
mod run;

pub use pause::Pause;
pub use run::run_until;
