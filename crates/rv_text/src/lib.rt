//! The text of instructions, and the listing of words.
//!
//! Stands on `rv_insn`, `cfi_unit` and `cfi_text`. Proved: `print` and `list` give the text of `specs/Text.antt` and
//! `specs/Listing.antt`. Only tested, by the cases of `cfi_cases`: the mnemonics and forms against an assembler's.
//! Open: nothing.
#![tactic(auto)]

pub mod laws;
mod listing;
pub mod names;
mod text;

pub use listing::list;
pub use text::{FULL_FENCE, print};
