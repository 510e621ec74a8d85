//! Why a line of a journal is not taken, and why a report is not valid.

ghost use Rattle.std.specs.Prelude.{◌≡◌, IfErr, IsTrue, OnOk};
ghost use Rattle.cfi_judge.specs.Judge.{journal_fault};
ghost use Rattle.cfi_judge.specs.inner.Faults.{Refutes};
ghost use Rattle.cfi_judge.specs.declared.fault.JournalFault.TheVariants as journals;
ghost use Rattle.cfi_judge.specs.declared.fault.JudgeFault.TheVariants as judges;
ghost use Rattle.cfi_judge.specs.declared.fault.LineFault.TheVariants.{Memory};

use std::alloc::AllocError;
use thiserror::Error;

/// Why a line of a journal is not taken.
#[derive(Clone, Copy)]
pub(crate) enum LineFault {
    /// It is not legal where it stands.
    Illegal,
    /// There is no memory to tell.
    Memory,
}

impl From<AllocError> for LineFault {
    ghost from_gives = { λ _ e. e ≡ Memory };

    fn from(_error: AllocError) -> LineFault {
        LineFault::Memory
    }
}

/// Why the journal of a report is not one of its plan.
#[derive(Clone, Copy, Debug, PartialEq, Eq)]
pub enum JournalFault {
    /// The line of this number, from 0, is the first that is not legal where it stands; or this is the number of lines,
    /// each is legal, and the force is not the one to which they lead.
    Line(usize),
    /// There is no memory to tell.
    Memory,
}

impl From<AllocError> for JournalFault {
    ghost from_gives = { λ _ e. e ≡ journals.Memory };

    fn from(_error: AllocError) -> JournalFault {
        JournalFault::Memory
    }
}

/// Why a report is none of a plan and its modules: the first part that fails, in the order of the variants, and in it
/// the least number, from 0.
#[derive(Clone, Copy, Debug, PartialEq, Eq, Error)]
pub enum JudgeFault {
    /// Its modules are not those that the plan and its journal tell of, or a start module does not join those before
    /// it.
    #[error("Modules")]
    Modules,
    /// The line of this number is not legal where it stands; or this is the number of lines, and the force is not the
    /// one to which they lead.
    #[error("Journal {0}")]
    Journal(usize),
    /// The lines for which the script asked are not those of its calls.
    #[error("Script")]
    Script,
    /// The guests are not those of the plan, or one has nowhere to begin.
    #[error("Guests")]
    Guests,
    /// The log of this guest does not fit the run.
    #[error("Log {0}")]
    Log(usize),
    /// The units of this guest do not come to what its part says.
    #[error("Replay {0}")]
    Replay(usize),
    /// The steps of this guest are not as many as it can have run.
    #[error("Steps {0}")]
    Steps(usize),
    /// There is no memory to tell.
    #[error("out of memory")]
    Memory,
}

impl From<AllocError> for JudgeFault {
    ghost from_gives = { λ _ e. e ≡ judges.Memory };

    fn from(_error: AllocError) -> JudgeFault {
        JudgeFault::Memory
    }
}

impl From<JournalFault> for JudgeFault {
    ghost from_gives = { λ fault e. e ≡ journal_fault fault };

    fn from(fault: JournalFault) -> JudgeFault {
        match fault {
            JournalFault::Line(number) => JudgeFault::Journal(number),
            JournalFault::Memory => JudgeFault::Memory,
        }
    }
}

// What makes a line legal holds.
pub(crate) fn must(holds: bool) -> Result<(), LineFault>
    ensures ok { OnOk result (IsTrue holds) }
    ensures fault { IfErr result (Refutes (IsTrue holds)) }
{
    if holds {
        Ok(())
    } else {
        Err(LineFault::Illegal)
    }
}
