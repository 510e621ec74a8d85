/// An entry of a guest's log.
#[derive(Clone, Copy, Debug, PartialEq, Eq)]
pub enum Log {
    /// So many checks in turn compared IDs under this policy.
    Pick {
        policy: u32,
        count: u32,
    },
    /// The module was open, its first global function at the address, under the loader's policy at the answer.
    Open {
        module: u32,
        address: u32,
        policy: u32,
    },
    /// The module was not opened, for this cause.
    Cause {
        module: u32,
        cause: u32,
    },
}

/// Why a guest stopped.
#[derive(Clone, Copy, Debug, PartialEq, Eq)]
pub enum Stop {
    /// It asked for its end, with this code.
    Exit(u32),
    /// A check refused this target.
    Halt(u32),
    /// An access to private data at this address, which is no multiple of its width.
    Align(u32),
    /// It ran as many instructions as it was given.
    Fuel,
}
