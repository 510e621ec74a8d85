//! What an update is for.

/// What the update is for whose EPOCH store is not made yet.
#[derive(Clone, Copy, Debug, PartialEq, Eq)]
pub enum Aim {
    /// The load of the module of this number.
    Loading(u32),
    /// A refresh.
    Refreshing,
}
