ghost use Rattle.std.specs.Prelude.{◌≡◌, ℕ, ◌+◌, ◌*◌, ◌/◌, ◌%◌, ◌<◌, ◌≤◌};
ghost use Rattle.cfi_word.specs.Table.{IsSize, slots_of, word_count};
ghost use Rattle.cfi_word.specs.Table.{quiet_word, code_word, tary_word, bary_word};

use crate::limits::{GUESTS, MAX_CODE_WORDS, MIN_CODE_WORDS};
use crate::sizes::CHECK_WORDS;
use std::marker::Model;
use thiserror::Error;

/// The word that tells the epoch and the policy in force.
pub const EPOCH: u32 = 0;

/// The first CODE word: EPOCH and the QUIET words come before it.
pub const FIRST_CODE: u32 = 1 + GUESTS;

/// This number of code words is no multiple of `MIN_CODE_WORDS` from it to `MAX_CODE_WORDS`.
#[derive(Clone, Copy, Debug, PartialEq, Eq, Error)]
#[error("{0} code words are no size of a table")]
pub struct BadSize(pub u32);

/// The number of each word of the shared table: EPOCH, the QUIET words of the guests, CODE, TARY and BARY.
#[derive(Clone, Copy, Debug, PartialEq, Eq)]
pub struct Layout {
    code_words: u32,
}

// Clauses see the number of code words.
impl Model for Layout {
    ghost Value = { ℕ };

    ghost view = { λ layout. layout.code_words };

    ghost invariant = { λ layout. IsSize layout.code_words };

    ghost inverse = { λ number. record { code_words = number } };
}

impl Layout {
    /// The layout with this number of code words, a multiple of 1,024 from `MIN_CODE_WORDS` to `MAX_CODE_WORDS`.
    pub fn new(code_words: u32) -> Result<Layout, BadSize>
        ensures ok { IsSize code_words → result ≡ Ok code_words }
        ensures fault { (IsSize code_words → ⊥) → result ≡ Err (record { 0 = code_words }) }
    {
        if code_words % MIN_CODE_WORDS == 0
            && MIN_CODE_WORDS <= code_words
            && code_words <= MAX_CODE_WORDS
        {
            Ok(Layout { code_words })
        } else {
            Err(BadSize(code_words))
        }
    }

    /// The number of code words, which is that of Tary words too.
    pub fn code_words(&self) -> u32
        ensures value { result ≡ self.now }
        ensures size { IsSize result }
    {
        self.code_words
    }

    /// The number of branch slots, which is that of Bary words: as many as the checks that fit, and one more.
    pub fn slots(&self) -> u32
        ensures { result ≡ slots_of self.now }
    {
        self.code_words / CHECK_WORDS as u32 + 1
    }

    /// The number of all words of the table.
    pub fn words(&self) -> u32
        ensures { result ≡ word_count self.now }
    {
        self.area_after(2) + self.slots()
    }

    /// The QUIET word of guest `g`, which is below `GUESTS`.
    pub fn quiet(&self, g: u32) -> u32
        requires { g < GUESTS }
        ensures { result ≡ quiet_word g }
    {
        1 + g
    }

    /// The CODE word of the code word `i`, which is below `code_words`.
    pub fn code(&self, i: u32) -> u32
        requires { i < self.now }
        ensures { result ≡ code_word i }
    {
        self.area_after(0) + i
    }

    /// The TARY word of the code word `i`, which is below `code_words`.
    pub fn tary(&self, i: u32) -> u32
        requires { i < self.now }
        ensures { result ≡ tary_word self.now i }
    {
        self.area_after(1) + i
    }

    /// The BARY word of the branch slot `b`, which is below `slots`.
    pub fn bary(&self, b: u32) -> u32
        requires { b < slots_of self.now }
        ensures { result ≡ bary_word self.now b }
    {
        self.area_after(2) + b
    }

    // The first word after this many of the areas CODE and TARY.
    fn area_after(&self, areas: u32) -> u32
        requires { areas ≤ 2 }
        ensures value { result ≡ FIRST_CODE + areas * self.now }
        ensures within { self.now ≤ MAX_CODE_WORDS }
    {
        FIRST_CODE + areas * self.code_words
    }
}
