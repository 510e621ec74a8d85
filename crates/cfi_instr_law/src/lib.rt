//! What is left for a verifier to find in a module that was instrumented: jumps that lead elsewhere.
//!
//! Stands on `cfi_instr`, `cfi_place`, `cfi_verify` and what these stand on. Proved: an instrumented module with text,
//! whose functions and branches have types of functions, has no other fault once it is placed. Only tested: nothing.
//! Open: nothing.
#![tactic(auto)]

mod laws;

pub use laws::{
    instrumented_are_proper, instrumented_stay_typed, proper_are_refused_for_targets,
    read_modules_are_typed, some_module_is_instrumented,
};
