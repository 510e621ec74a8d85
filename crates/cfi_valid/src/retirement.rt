//! Retired modules.

/// A loaded module was retired.
#[derive(Clone, Copy, Debug, PartialEq, Eq)]
pub struct Retirement {
    /// Its number in the plan, from 0.
    pub number: u32,
    /// The policy that came with that.
    pub policy: u32,
}
