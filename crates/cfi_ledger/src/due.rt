//! The next call of a plan's script.

/// A call that the script makes.
#[derive(Clone, Copy, Debug, PartialEq, Eq)]
pub enum Due {
    /// The load of the module of this number.
    Load(u32),
    /// A refresh.
    Refresh,
    /// The retirement of the module of this number.
    Retire(u32),
}
