//! What slips and their stubs say. No value of these types is made: a clause reads an array as a list, of any length.

use cfi_plan::{Entry, JournalLine};

/// What a slip says.
pub struct SlipView {
    /// The guest's number.
    pub guest: u32,
    /// The lines that were told in its name, from first to last.
    pub lines: [JournalLine; 0],
}

/// What the stubs say.
pub struct StubsView {
    /// The lines that were told by a slip, each with its guest, from first to last.
    pub told: [Entry; 0],
    /// For each guest number, whether its slip is out.
    pub out: [bool; 0],
    /// A slip that is out and has no seat of its own.
    pub held: Option<SlipView>,
}

/// What a seat knows.
pub enum View {
    /// The seat is that of the stubs.
    Stubs(StubsView),
    /// The seat is a slip's.
    Slip(SlipView),
    /// The seat is used no more.
    Spent,
}
