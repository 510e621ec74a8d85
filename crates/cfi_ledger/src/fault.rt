//! Why a plan cannot be opened.

ghost use Rattle.std.specs.Prelude.{◌≡◌};
ghost use Rattle.cfi_ledger.specs.declared.fault.StartFault.TheVariants.{Memory};

use cfi_place::PlaceFault;
use cfi_verify::VerifyFault;
use std::alloc::AllocError;
use thiserror::Error;

/// Why a plan cannot be opened: its first fault, modules before guests.
#[derive(Debug, Drop, Error)]
pub enum OpenFault {
    /// The start module of this number does not fit at the next free place.
    #[error("module {0}: {1}")]
    Place(u32, PlaceFault),
    /// The start module of this number, placed there, does not verify against those before it.
    #[error("module {0}: {1}")]
    Verify(u32, VerifyFault),
    /// No start module has a Global function of the name that the guest of this number enters.
    #[error("guest {0} has no entry")]
    NoEntry(u32),
}

/// Why a plan is not started.
#[derive(Debug, Drop, Error)]
pub enum StartFault {
    /// It cannot be opened.
    #[error("{0}")]
    Open(OpenFault),
    /// There is no memory for it.
    #[error("out of memory")]
    Memory,
}

impl From<AllocError> for StartFault {
    ghost from_gives = { λ _ e. e ≡ Memory };

    fn from(_error: AllocError) -> StartFault {
        StartFault::Memory
    }
}
