//! Why a module is refused.

ghost use Rattle.std.specs.Prelude.{◌≡◌};
ghost use Rattle.cfi_verify.specs.declared.fault.VerifyFault.TheVariants.{Memory};

use std::alloc::{AllocError, AllocFailed};
use thiserror::Error;

/// Why a module is refused: its first fault, in the order of the variants.
///
/// Places in code are bytes from the module's start; functions and branches go by their numbers, from 0.
#[derive(Clone, Copy, Debug, PartialEq, Eq, Error)]
pub enum VerifyFault {
    /// There are no words.
    #[error("there is no code")]
    Empty,
    /// The word at this place is no instruction.
    #[error("the word at {0} is no instruction")]
    Illegal(u32),
    /// Units that are read from the start stop at this place.
    #[error("no unit begins at {0}")]
    NotUnit(u32),
    /// The check at this place does not name the slot of its number.
    #[error("the check at {0} names another slot")]
    Slot(u32),
    /// This function is empty, out of order or out of the words, does not begin and end at units, or has another type
    /// than that of a function; or what stands before it is no padding. After the last one, the number of functions.
    #[error("function {0} does not fit")]
    Functions(u32),
    /// The last unit of this function is neither a jump nor a check without link.
    #[error("function {0} falls through")]
    FallsThrough(u32),
    /// The branch or the jump at this place leads where it may not.
    #[error("the unit at {0} leads where it may not")]
    Target(u32),
    /// The check at this place has no branch record, or another kind than its link asks for, or a type of no function.
    /// Where records are left over, the length of the code.
    #[error("the check at {0} has no fitting record")]
    Kinds(u32),
    /// An entry of this branch is no unit of its own function.
    #[error("branch {0} has an entry that is no unit of its function")]
    Switch(u32),
    /// There is no memory.
    #[error("out of memory")]
    Memory,
}

impl From<AllocError> for VerifyFault {
    ghost from_gives = { λ _ e. e ≡ Memory };

    fn from(_error: AllocError) -> VerifyFault {
        VerifyFault::Memory
    }
}

impl<T: Drop> From<AllocFailed<T>> for VerifyFault {
    ghost from_gives = { λ _ e. e ≡ Memory };

    fn from(_error: AllocFailed<T>) -> VerifyFault {
        VerifyFault::Memory
    }
}
