//! The limits of a schedule, and the cause that its opens alone can have.

/// The most events of a schedule.
pub const MAX_EVENTS: u32 = 10_000_000;

/// The most updates that a schedule begins.
pub const MAX_UPDATES: u32 = 10_000;

/// The module is not loaded, or an update is under way: opens load nothing.
pub const NOT_LOADED: u32 = 10;
