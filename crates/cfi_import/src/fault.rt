//! Why a module gets no stubs.

ghost use Rattle.std.specs.Prelude.{◌≡◌};
ghost use Rattle.cfi_import.specs.declared.fault.StubFault.TheVariants.{Memory};

use elf_read::Limit;
use std::alloc::{AllocError, AllocFailed};
use thiserror::Error;

/// Why a module gets no stubs, in the order of the variants.
#[derive(Clone, Copy, Debug, PartialEq, Eq, Error)]
pub enum StubFault {
    /// The module with stubs passes this limit on one object.
    #[error("the limit on {0:?} is passed")]
    TooMany(Limit),
    /// There is no memory for the module.
    #[error("out of memory")]
    Memory,
}

impl From<AllocError> for StubFault {
    ghost from_gives = { λ _ e. e ≡ Memory };

    fn from(_error: AllocError) -> StubFault {
        StubFault::Memory
    }
}

impl<T: Drop> From<AllocFailed<T>> for StubFault {
    ghost from_gives = { λ _ e. e ≡ Memory };

    fn from(_error: AllocFailed<T>) -> StubFault {
        StubFault::Memory
    }
}
