//! What an open finds.

/// What an open of a module finds.
#[derive(Clone, Copy, Debug, PartialEq, Eq)]
pub enum Found {
    /// The plan has no such module.
    Unknown,
    /// It is loaded, and has no function to be opened.
    Functionless,
    /// It is open at this address.
    Opened(u32),
    /// It is not loaded, or an update is under way.
    Unloaded,
}
