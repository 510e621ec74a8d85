//! Why a module does not fit at its place.

ghost use Rattle.std.specs.Prelude.{◌≡◌};
ghost use Rattle.cfi_place.specs.declared.fault.PlaceFault.TheVariants.{Memory};

use elf_read::Name;
use rv_reloc::RelocFault;
use std::alloc::{AllocError, AllocFailed};
use thiserror::Error;

/// Why a module is not placed: its first fault, in the order of the variants.
#[derive(Debug, Drop, Error)]
pub enum PlaceFault {
    /// A relocation, the first such one, names a global symbol of this name that is defined nowhere.
    #[error("a symbol is undefined")]
    Undefined(Name),
    /// The text does not fit into the code.
    #[error("the code is full")]
    CodeFull,
    /// The data would end past `DATA_END`.
    #[error("the data is full")]
    DataFull,
    /// The relocation of this number, from 0, can not be applied.
    #[error("relocation {0}: {1}")]
    Reloc(u32, RelocFault),
    /// There is no memory for the placed module.
    #[error("out of memory")]
    Memory,
}

impl From<AllocError> for PlaceFault {
    ghost from_gives = { λ _ e. e ≡ Memory };

    fn from(_error: AllocError) -> PlaceFault {
        PlaceFault::Memory
    }
}

impl<T: Drop> From<AllocFailed<T>> for PlaceFault {
    ghost from_gives = { λ _ e. e ≡ Memory };

    fn from(_error: AllocFailed<T>) -> PlaceFault {
        PlaceFault::Memory
    }
}
