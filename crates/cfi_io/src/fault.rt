//! Why the outside did not do what it was asked.
ghost use Rattle.std.specs.Prelude.{◌≡◌};

use std::alloc::{AllocError, AllocFailed};
use thiserror::Error;

/// Why a shelf gave no file, or took none.
#[derive(Clone, Copy, Debug, PartialEq, Eq, Error)]
pub enum ShelfFault {
    /// The shelf failed.
    #[error("the shelf failed")]
    Failed,
    /// The shelf has no file of the name.
    #[error("there is no such file")]
    Absent,
    /// The file has more than `MAX_FILE_BYTES` bytes.
    #[error("the file is too long")]
    TooLong,
    /// No memory is left.
    #[error("no memory is left")]
    Memory,
}

/// Why a sink did not take all bytes.
#[derive(Clone, Copy, Debug, PartialEq, Eq, Error)]
pub enum SinkFault {
    /// The sink failed.
    #[error("the sink failed")]
    Failed,
    /// No memory is left.
    #[error("no memory is left")]
    Memory,
}

impl From<AllocError> for ShelfFault {
    ghost use Rattle.cfi_io.specs.declared.fault.ShelfFault.TheVariants.{Memory};

    ghost from_gives = { λ _ e. e ≡ Memory };

    fn from(_: AllocError) -> Self {
        ShelfFault::Memory
    }
}

impl<T: Drop> From<AllocFailed<T>> for ShelfFault {
    ghost use Rattle.cfi_io.specs.declared.fault.ShelfFault.TheVariants.{Memory};

    ghost from_gives = { λ _ e. e ≡ Memory };

    fn from(_: AllocFailed<T>) -> Self {
        ShelfFault::Memory
    }
}

impl From<AllocError> for SinkFault {
    ghost use Rattle.cfi_io.specs.declared.fault.SinkFault.TheVariants.{Memory};

    ghost from_gives = { λ _ e. e ≡ Memory };

    fn from(_: AllocError) -> Self {
        SinkFault::Memory
    }
}
