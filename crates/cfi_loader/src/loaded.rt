//! What a load answers.

/// A module that is loaded, and what is in force.
#[derive(Clone, Copy, Debug, PartialEq, Eq)]
pub struct Loaded {
    /// Whether it was loaded before the call.
    pub again: bool,
    /// The epoch in force.
    pub epoch: u32,
    /// The policy in force.
    pub policy: u32,
    /// The address of its first Global function; None where it has none.
    pub address: Option<u32>,
}
