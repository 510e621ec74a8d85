//! What instrumenting, linking and giving stubs make breaks no rule of objects, and passes no limit of a file, as the
//! object of a source.
//!
//! Stands on `cfi_instr_law`, `cfi_link`, `cfi_import`, `rv_asm`, `elf_write` and what these stand on. Proved: what is
//! made of sound modules is sound; what is made of modules that were read, and the object of a source that is no longer
//! than a file, is within the limits of a written file. Only tested: nothing. Open: nothing.
#![tactic(auto)]

mod laws;

pub use laws::{
    assembled_are_whole, assembled_are_within_limits, instrumented_are_sound,
    instrumented_are_within_limits, linked_are_sound, linked_are_within_limits, stubbed_are_sound,
    stubbed_are_within_limits,
};
