//! Why a bare file is refused.

ghost use Rattle.std.specs.Prelude.{◌≡◌};
ghost use Rattle.cfi_bare.specs.declared.fault.BareFault.TheVariants.{Memory};

use std::alloc::{AllocError, AllocFailed};
use thiserror::Error;

/// Why a file is no bare file.
#[derive(Clone, Copy, Debug, PartialEq, Eq, Error)]
pub enum BareFault {
    /// It has this many bytes, which are no whole words.
    #[error("{0} bytes are no whole words")]
    Length(usize),
    /// There is no memory for its module.
    #[error("out of memory")]
    Memory,
}

impl From<AllocError> for BareFault {
    ghost from_gives = { λ _ e. e ≡ Memory };

    fn from(_error: AllocError) -> BareFault {
        BareFault::Memory
    }
}
