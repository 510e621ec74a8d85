//! Why a module is not instrumented.

ghost use Rattle.std.specs.Prelude.{◌≡◌};
ghost use Rattle.cfi_instr.specs.declared.fault.InstrFault.TheVariants.{Memory};

use std::alloc::{AllocError, AllocFailed};
use thiserror::Error;

/// Why a module is not instrumented: its first fault, in the order of the variants. Offsets are in bytes from the start
/// of its text; the other numbers count from 0.
#[derive(Clone, Copy, Debug, PartialEq, Eq, Error)]
pub enum InstrFault {
    /// The word at this offset is no instruction.
    #[error("no instruction at {0}")]
    Illegal(u32),
    /// The instruction at this offset names a register from x28 to x31.
    #[error("a register of the instrumentation at {0}")]
    Reserved(u32),
    /// There is an EBREAK at this offset.
    #[error("a trap at {0}")]
    Trap(u32),
    /// The jump at this offset links by another register than x0 and x1.
    #[error("a link by another register at {0}")]
    BadLink(u32),
    /// The relocation of this number is misplaced.
    #[error("relocation {0} is misplaced")]
    BadReloc(u32),
    /// The function of this number is malformed; their number stands for what is after the last one.
    #[error("function {0} is malformed")]
    Function(u32),
    /// The jump or branch at this offset leads where it may not.
    #[error("a stray jump at {0}")]
    Stray(u32),
    /// The indirect jump at this offset has no fitting record; the text's length where records are left over.
    #[error("no kind of jump at {0}")]
    NoKind(u32),
    /// The switch of this number leads where it may not.
    #[error("switch {0} leads astray")]
    Switch(u32),
    /// The function of this number does not end in a jump without link.
    #[error("function {0} falls through")]
    FallsThrough(u32),
    /// The output would have more than 65,520 words.
    #[error("the output is too long")]
    TooLong,
    /// There is no memory for the output.
    #[error("out of memory")]
    Memory,
}

impl From<AllocError> for InstrFault {
    ghost from_gives = { λ _ e. e ≡ Memory };

    fn from(_error: AllocError) -> InstrFault {
        InstrFault::Memory
    }
}

impl<T: Drop> From<AllocFailed<T>> for InstrFault {
    ghost from_gives = { λ _ e. e ≡ Memory };

    fn from(_error: AllocFailed<T>) -> InstrFault {
        InstrFault::Memory
    }
}
