//! Why a load is refused.

use cfi_place::PlaceFault;
use cfi_verify::VerifyFault;
use thiserror::Error;

/// Why a module is not loaded: the first cause, in this order.
#[derive(Debug, Drop, Error)]
pub enum LoadFault {
    /// The module was retired.
    #[error("the module was retired")]
    Retired,
    /// `MAX_LOADED` modules are loaded.
    #[error("no further module may be loaded")]
    ModulesFull,
    /// It does not fit at the next free place.
    #[error("{0}")]
    Place(PlaceFault),
    /// Placed there, it does not verify against those that are live.
    #[error("{0}")]
    Verify(VerifyFault),
    /// The epoch in force is `MAX_EPOCH`.
    #[error("no epoch is left")]
    EpochsSpent,
    /// The QUIET word of a guest tells an epoch that is too far behind.
    #[error("guest {guest} has published epoch {quiet}, and no version is left")]
    VersionsSpent {
        /// The guest.
        guest: u32,
        /// The epoch that it has published.
        quiet: u32,
    },
    /// There is no memory for it.
    #[error("out of memory")]
    Memory,
}
