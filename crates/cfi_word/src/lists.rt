//! Edges, labels and images.

use cfi_values::Numbers;

/// A direct edge: this branch slot may go to this code address.
#[derive(Clone, Copy, Debug, PartialEq, Eq, PartialOrd, Ord)]
pub struct Edge {
    /// The branch slot, from 0.
    pub branch: u32,
    /// The code address, in bytes.
    pub target: u32,
}

/// The class number of each code word and of each branch slot.
#[derive(Debug, PartialEq, Eq, Drop)]
pub struct Labels {
    /// By code word: 0 where no branch may go.
    pub tary: Numbers,
    /// By branch slot: `FIELD_MAX` where the branch may go nowhere.
    pub bary: Numbers,
}

/// What one epoch's tables hold: the classes and the code.
#[derive(Debug, PartialEq, Eq, Drop)]
pub struct Image {
    /// The class number of each code word.
    pub tary: Numbers,
    /// The class number of each branch slot.
    pub bary: Numbers,
    /// The instruction at each code word, 0 where nothing is placed.
    pub code: Numbers,
}
