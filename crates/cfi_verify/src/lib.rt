//! The verifier of placed modules: whether a module's code keeps to its functions, types and branches.
//!
//! Stands on `cfi_unit`, `cfi_aux`, `cfi_type_table`, `cfi_values`, `elf_read`, `rv_insn` and `thiserror`. Proved:
//! `verify` answers the first fault of `specs/Fault.antt`, and Ok exactly where none stands. Only tested, by the cases
//! of `cfi_cases`: that ample memory is enough, and words against an assembler. Open: when memory runs out, and the
//! texts of faults.
#![tactic(auto)]

mod branches;
mod checks;
mod entries;
mod fault;
mod functions;
mod home;
mod laws;
mod reader;
mod search;
mod target;
mod verifier;

pub use checks::CheckSpot;
pub use fault::VerifyFault;
pub use laws::{one_first_fault, some_module_verifies};
pub use verifier::verify;
