//! Why the keeper refuses.

use thiserror::Error;

/// Why no pass was admitted.
#[derive(Clone, Copy, Debug, PartialEq, Eq, Error)]
pub enum AdmitFault {
    /// `GUESTS` passes are out.
    #[error("no seat is free")]
    NoSeat,
}

/// Why an update was refused.
#[derive(Clone, Copy, Debug, PartialEq, Eq, Error)]
pub enum UpdateFault {
    /// The epoch in force is `MAX_EPOCH`.
    #[error("no epoch is left")]
    EpochsSpent,
    /// The QUIET word of a guest tells an epoch that is too far behind.
    #[error("guest {guest} has published epoch {quiet}, and no version is left")]
    VersionsSpent {
        /// The guest.
        guest: u32,
        /// The epoch that it has published.
        quiet: u32,
    },
}
