//! Why a guest pauses.

/// Why a run has come back.
#[derive(Clone, Copy, Debug, PartialEq, Eq)]
pub enum Pause {
    /// The guest waits in the service of this number.
    Service(u32),
    /// A check has stopped it before this target.
    Halt(u32),
    /// A load or a store at this address has stopped it: the address is no multiple of the access's width.
    Align(u32),
    /// It has run as many instructions as it may.
    Fuel,
}
