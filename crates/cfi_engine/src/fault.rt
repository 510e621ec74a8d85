//! Why a plan is not run.

ghost use Rattle.std.specs.Prelude.{◌≡◌};
ghost use Rattle.cfi_engine.specs.declared.fault.RunFault.TheVariants.{Memory};

use cfi_loader::OpenFault;
use std::alloc::AllocError;
use thiserror::Error;

/// Why there is no report of a plan.
#[derive(Debug, Error, Drop)]
pub enum RunFault {
    /// The plan cannot be opened.
    #[error("{0}")]
    Open(OpenFault),
    /// Memory ran out, at the start or in a load that a guest or the script asked for.
    #[error("out of memory")]
    Memory,
}

impl From<AllocError> for RunFault {
    ghost from_gives = { λ _ e. e ≡ Memory };

    fn from(_error: AllocError) -> RunFault {
        RunFault::Memory
    }
}
