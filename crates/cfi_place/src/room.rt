//! Where a module goes.

/// Where a module goes: the next free places.
#[derive(Clone, Copy, Debug, PartialEq, Eq)]
pub struct Room {
    /// Where its text begins, in words of the code, at most `code_words`.
    pub base: u32,
    /// The slot of its first check, at most `base / 14`.
    pub slot_base: u32,
    /// The address at which its data begins, a multiple of 16 from `DATA_START` to `DATA_END`.
    pub data_base: u32,
    /// How many words the code has, as a `Layout` has them.
    pub code_words: u32,
}
