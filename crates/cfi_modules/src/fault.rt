//! Why a module does not join those before it.

ghost use Rattle.std.specs.Prelude.{◌≡◌};
ghost use Rattle.cfi_modules.specs.declared.fault.JoinFault.TheVariants.{Memory};

use cfi_place::PlaceFault;
use cfi_verify::VerifyFault;
use std::alloc::{AllocError, AllocFailed};
use thiserror::Error;

/// Why a module does not join those before it: the layer that refuses it, and its first fault.
#[derive(Debug, Drop, Error)]
pub enum JoinFault {
    /// It does not fit at the next free place.
    #[error("{0}")]
    Place(PlaceFault),
    /// Placed there, it does not verify against those before it.
    #[error("{0}")]
    Verify(VerifyFault),
    /// There is no memory for it.
    #[error("out of memory")]
    Memory,
}

impl From<AllocError> for JoinFault {
    ghost from_gives = { λ _ e. e ≡ Memory };

    fn from(_error: AllocError) -> JoinFault {
        JoinFault::Memory
    }
}

impl<T: Drop> From<AllocFailed<T>> for JoinFault {
    ghost from_gives = { λ _ e. e ≡ Memory };

    fn from(_error: AllocFailed<T>) -> JoinFault {
        JoinFault::Memory
    }
}
