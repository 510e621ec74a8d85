//! What seats know of the tables. No value of these types is made but `Told`: a clause reads an array as a list, of
//! any length.

use cfi_model::{Access, Entry, Refusal};
use cfi_word::{Image, Layout};
use std::snapshot::Snapshot;

/// What was seen of the tables.
pub struct Sight {
    /// The entries of the epochs from the first on, as far as they were seen.
    pub entries: [Entry; 0],
    /// The updates that were not admitted, as far as they were seen.
    pub refusals: [Refusal; 0],
    /// The greatest epoch that was seen at an admission, by a note, in EPOCH or in a Bary word.
    pub latest: u32,
    /// What was loaded, from first to last.
    pub accesses: [Access; 0],
    /// All entries that the tables had had when the pass last loaded, or was admitted or told.
    pub had: [Entry; 0],
    /// How many stores of the update to the last of them were made then.
    pub stored: u32,
}

/// What a pass's seat knows.
pub struct PassView {
    /// The guest's number.
    pub guest: u32,
    /// The epoch that the guest has last published.
    pub quiet: u32,
    /// Whether the guest is parked: its QUIET word then tells no epoch.
    pub parked: bool,
    /// What the pass has seen.
    pub sight: Sight,
}

/// What the keeper knows of the QUIET words, by guest number.
pub struct Quiets {
    /// The word that tells what the guest has published, as the keeper has last stored it, loaded it or heard of it.
    pub heard: [u64; 0],
    /// The word that an update has last loaded.
    pub found: [u64; 0],
}

/// What the keeper's seat knows: all that the tables have had.
pub struct KeeperView {
    /// An entry for each epoch from the first on.
    pub entries: [Entry; 0],
    /// How many stores of the update to the last entry were made.
    pub stored: u32,
    /// The update whose test is under way.
    pub asked: Option<Entry>,
    /// How many QUIET words its test has passed.
    pub tested: u32,
    /// The updates that were not admitted.
    pub refusals: [Refusal; 0],
    /// For each guest number, whether its pass is out.
    pub out: [bool; 0],
    /// What it knows of the QUIET words.
    pub quiets: Quiets,
    /// A pass that is out and has no seat of its own.
    pub held: Option<PassView>,
}

/// What a seat knows.
pub enum View {
    /// The seat is the keeper's, which makes the stores.
    Keeper(KeeperView),
    /// The seat is a pass's, which loads for a guest.
    Pass(PassView),
    /// The seat is used no more.
    Spent,
}

/// What a table is told when it is made.
#[derive(Drop)]
pub struct Told {
    /// Which words it has.
    pub layout: Layout,
    /// The number of versions.
    pub versions: u32,
    /// The first epoch.
    pub first: u32,
    /// The first image.
    pub image: Snapshot<Image>,
}
