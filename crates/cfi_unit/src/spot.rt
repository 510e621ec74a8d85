//! Units and where they stand.

use crate::unit::Unit;

/// A unit of code, and where it stands.
#[derive(Clone, Copy, Debug, PartialEq, Eq)]
pub struct Spot {
    /// The number of its first word, from the code's first, from 0.
    pub at: u32,
    /// The unit.
    pub unit: Unit,
}
