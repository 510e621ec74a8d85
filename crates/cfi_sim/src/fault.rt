//! Why there is no simulation.

ghost use Rattle.std.specs.Prelude.{◌≡◌};
ghost use Rattle.cfi_sim.specs.declared.fault.SimFault.TheVariants.{Memory};

use cfi_ledger::OpenFault;
use std::alloc::{AllocError, AllocFailed};
use thiserror::Error;

/// Why there is no simulation.
#[derive(Debug, Error, Drop)]
pub enum SimFault {
    /// The plan cannot be opened.
    #[error("{0}")]
    Open(OpenFault),
    /// The line of this number, from 1, is none of a schedule, names what is not there, passes a limit, or has no
    /// event.
    #[error("line {0} has no event")]
    BadEvent(u32),
    /// Memory ran out.
    #[error("out of memory")]
    Memory,
}

impl From<AllocError> for SimFault {
    ghost from_gives = { λ _ e. e ≡ Memory };

    fn from(_error: AllocError) -> SimFault {
        SimFault::Memory
    }
}

impl<T: Drop> From<AllocFailed<T>> for SimFault {
    ghost from_gives = { λ _ e. e ≡ Memory };

    fn from(_error: AllocFailed<T>) -> SimFault {
        SimFault::Memory
    }
}
