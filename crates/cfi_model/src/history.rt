//! What the shared tables have held, and what was asked of them.

use cfi_word::Image;

/// One epoch of the tables.
#[derive(Debug, PartialEq, Eq, Drop)]
pub struct Entry {
    /// The policy number.
    pub policy: u32,
    /// The classes and the code.
    pub image: Image,
    /// A number that the caller of the update gave.
    pub mark: u32,
}

/// An update that was not admitted.
#[derive(Clone, Copy, Debug, PartialEq, Eq)]
pub struct Refusal {
    /// The guest whose QUIET word forbade it.
    pub guest: u32,
    /// The epoch that the guest had published.
    pub quiet: u32,
    /// The epoch that was refused.
    pub epoch: u32,
    /// A number that the caller of the update gave.
    pub mark: u32,
}

/// A moment of the tables: how far they had come.
#[derive(Clone, Copy, Debug, PartialEq, Eq)]
pub struct Moment {
    /// How many entries they had had.
    pub entries: u32,
    /// How many stores of the update to the last of these were made.
    pub stored: u32,
}

/// A guest's load of a word of the table.
#[derive(Clone, Copy, Debug, PartialEq, Eq)]
pub struct Access {
    /// The word's number.
    pub word: u32,
    /// What was found.
    pub found: u64,
    /// When it was loaded.
    pub moment: Moment,
}
