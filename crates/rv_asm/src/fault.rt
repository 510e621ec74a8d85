//! Why a text makes no object.

use std::alloc::{AllocError, AllocFailed};
use thiserror::Error;

/// Why a text makes no object: its first faulty line, and the least of that line's faults in the order of the variants.
#[derive(Clone, Copy, Debug, PartialEq, Eq, Error)]
pub enum AsmFault {
    /// The line of this number, from 1, has no such form, may not stand where it does, or names a node that is not
    /// there. A function that is open at the end is a fault of the line after the last.
    #[error("line {0} has no such form")]
    Syntax(u32),
    /// The line of this number has a name that must be defined and is not.
    #[error("line {0} has a name that is not defined")]
    UnknownName(u32),
    /// The line of this number defines a name a second time.
    #[error("line {0} defines a name a second time")]
    Twice(u32),
    /// The line of this number has a number outside its field, leads too far, or passes a limit.
    #[error("line {0} has a number out of range, or passes a limit")]
    Range(u32),
    /// Memory ran out.
    #[error("out of memory")]
    Memory,
}

impl From<AllocError> for AsmFault {
    ghost use Rattle.std.specs.Prelude.{◌≡◌};
    ghost use Rattle.rv_asm.specs.declared.fault.AsmFault.TheVariants.{Memory};

    ghost from_gives = { λ _ fault. fault ≡ Memory };

    fn from(_error: AllocError) -> AsmFault {
        AsmFault::Memory
    }
}

impl<T: Drop> From<AllocFailed<T>> for AsmFault {
    ghost use Rattle.std.specs.Prelude.{◌≡◌};
    ghost use Rattle.rv_asm.specs.declared.fault.AsmFault.TheVariants.{Memory};

    ghost from_gives = { λ _ fault. fault ≡ Memory };

    fn from(_error: AllocFailed<T>) -> AsmFault {
        AsmFault::Memory
    }
}
