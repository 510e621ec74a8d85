//! Laws of the verifier: of each module each row holds, or it has a first fault; it joins those before it, or has a
//! fault; and a linked module verifies where its parts do.
//!
//! Stands on `cfi_verify`, `cfi_modules`, `cfi_link`, `cfi_place` and what these stand on; nothing stands on it.
//! Proved: where no fault stands against a module, its words are units, and each row holds of them; of any other module
//! some fault is the first; each module joins those before it, or has a fault other than a want of memory; of an image
//! of the first modules each image of all keeps the words and the starts; where the modules that one was linked of join
//! in order behind others, and it is placed there with their words, it verifies against those others; and some modules
//! are so. Only tested: nothing. Open: nothing.
#![tactic(auto)]

mod joining;
mod linked;
mod verified;

pub use joining::{joins_or_has_a_fault, more_modules_keep};
pub use linked::{linked_verify_where_their_parts_do, some_modules_are_linked};
pub use verified::{no_fault_is_verified, verified_or_first_fault};
