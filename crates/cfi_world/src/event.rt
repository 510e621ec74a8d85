//! What happens in a world, and what comes of it.

use cfi_model::Answer;
use cfi_word::Image;

/// An event of a world.
#[derive(Debug, Drop)]
pub enum Event<'a> {
    /// The guest of this number makes its next load or store of a shared word.
    Guest(u32),
    /// An update to this image begins, or where there is none, one that keeps image and policy.
    Begin(Option<Image>),
    /// The updater makes its next load or store of a shared word.
    Update,
    /// The guest of this number gets the answer to its open.
    Answer(u32, Answer<'a>),
    /// The guest of this number, which has stopped, is registered no more.
    Release(u32),
}

/// What came of an event.
#[derive(Clone, Copy, Debug, PartialEq, Eq)]
pub enum Turned {
    /// It happened.
    Did,
    /// It happened, and the guest waits for the answer to an open of this module.
    Asks { guest: u32, module: u32 },
    /// The update was not admitted: the guest had published this epoch.
    VersionsSpent { guest: u32, quiet: u32 },
    /// No update began: the epoch in force is the greatest.
    EpochsSpent,
    /// Nothing happened.
    Nothing,
}
