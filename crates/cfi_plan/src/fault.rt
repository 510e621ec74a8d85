use std::alloc::{AllocError, AllocFailed};
use thiserror::Error;

/// Why a text is no plan: its first faulty line, or that no line is a guest.
#[derive(Clone, Copy, Debug, PartialEq, Eq, Error)]
pub enum PlanFault {
    /// The line of this number, from 1, has no such form, says again what stands, or names no module.
    #[error("line {0} is no line of a plan")]
    Syntax(u32),
    /// The line of this number has a number outside its limits, or one too many of its kind.
    #[error("line {0} passes a limit")]
    Limit(u32),
    /// No line is a guest.
    #[error("the plan has no guest")]
    NoGuest,
    /// Memory ran out.
    #[error("out of memory")]
    Memory,
}

impl From<AllocError> for PlanFault {
    ghost use Rattle.std.specs.Prelude.{◌≡◌};
    ghost use Rattle.cfi_plan.specs.declared.fault.PlanFault.TheVariants.{Memory};

    ghost from_gives = { λ _ fault. fault ≡ Memory };

    fn from(_error: AllocError) -> PlanFault {
        PlanFault::Memory
    }
}

impl<T: Drop> From<AllocFailed<T>> for PlanFault {
    ghost use Rattle.std.specs.Prelude.{◌≡◌};
    ghost use Rattle.cfi_plan.specs.declared.fault.PlanFault.TheVariants.{Memory};

    ghost from_gives = { λ _ fault. fault ≡ Memory };

    fn from(_error: AllocFailed<T>) -> PlanFault {
        PlanFault::Memory
    }
}
