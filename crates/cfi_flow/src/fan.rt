//! Fans.

/// Branches each of which may go to each of some addresses.
#[derive(Debug, Drop)]
pub(crate) struct Fan {
    /// The slots of the branches.
    pub(crate) slots: Vec<u32>,
    /// The addresses.
    pub(crate) targets: Vec<u32>,
}
