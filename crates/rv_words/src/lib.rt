//! The words that bytes are, and the bytes of words.
//!
//! Stands on `byteorder`. Proved: `words_of` gives the words of `specs/Words.antt`, and `bytes_of` the four bytes of
//! each word. Only tested, by the cases of `cfi_cases`: that ample memory is enough. Open: nothing.
#![tactic(auto)]

mod words;

pub use words::{bytes_of, words_of};
