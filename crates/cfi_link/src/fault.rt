//! Why modules can not be linked.

ghost use Rattle.std.specs.Prelude.{◌≡◌};
ghost use Rattle.cfi_link.specs.declared.fault.LinkFault.TheVariants.{Memory};

use elf_read::{Limit, Name};
use std::alloc::{AllocError, AllocFailed};
use thiserror::Error;

/// Why modules are not linked: their first fault, in the order of the variants. Modules are counted from 0.
#[derive(Debug, Drop, Error)]
pub enum LinkFault {
    /// No module has a word of text.
    #[error("there is no text")]
    NoText,
    /// The text of this module is not units from its start to its end: none begins at this offset in bytes.
    #[error("module {0}: no unit begins at offset {1}")]
    NotUnit(u32, u32),
    /// The modules together pass this limit on one object.
    #[error("the limit on {0:?} is passed")]
    TooMany(Limit),
    /// Two modules define this name as a global one.
    #[error("a name is defined twice")]
    Twice(Name),
    /// The relocation of this module and this number, from 0, can not be applied.
    #[error("module {0}: relocation {1} can not be applied")]
    BadReloc(u32, u32),
    /// There is no memory for the module.
    #[error("out of memory")]
    Memory,
}

impl From<AllocError> for LinkFault {
    ghost from_gives = { λ _ e. e ≡ Memory };

    fn from(_error: AllocError) -> LinkFault {
        LinkFault::Memory
    }
}

impl<T: Drop> From<AllocFailed<T>> for LinkFault {
    ghost from_gives = { λ _ e. e ≡ Memory };

    fn from(_error: AllocFailed<T>) -> LinkFault {
        LinkFault::Memory
    }
}
