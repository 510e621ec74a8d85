//! The answers to files that are refused.

ghost use Rattle.std.specs.Prelude.{◌≡◌, ◌≢◌, length, IfOk};
ghost use Rattle.cfi_plan.specs.declared.fault.PlanFault.TheVariants.{Memory};
ghost use Rattle.cfi_top.specs.Refused.{IsAmong, IsOpenAmong, IsRefusalOf, IsModuleRefused, IsOpeningRefused, bare_refused, plan_refused};

use crate::answer::Answer;
use cfi_commands::{CommandFault, Refusal};
use cfi_ledger::OpenFault;
use cfi_plan::{PlanFault, PlanModule};
use cfi_request::text_of;
use cfi_values::Text;
use std::alloc::{AllocError, Global};

/// The refusal of the file of this name.
pub fn refused(name: Text, fault: CommandFault) -> Result<Answer, AllocError>
    ensures { IfOk result (IsRefusalOf name fault) }
{
    match fault {
        CommandFault::File(_, refusal) => Ok(Answer::Refused(name, refusal)),
        CommandFault::Together(fault) => Ok(Answer::Refused(name, Refusal::Link(fault))),
        CommandFault::Memory => Err(AllocError),
    }
}

/// The refusal of a plan.
pub fn plan_refused(plan: Text, fault: PlanFault) -> Result<Answer, AllocError>
    ensures answer { IfOk result (λ answer. answer ≡ plan_refused plan fault) }
    ensures stands { IfOk result (λ _. fault ≢ Memory) }
{
    match fault {
        PlanFault::Memory => Err(AllocError),
        fault => Ok(Answer::Refused(plan, Refusal::Plan(fault))),
    }
}

/// The refusal of the first of the files of a plan's modules that has a fault.
pub fn module_refused(
    alloc: Global,
    modules: &[PlanModule],
    fault: CommandFault,
) -> Result<Answer, AllocError>
    requires { IsAmong (length modules.now) fault }
    ensures { IfOk result (IsModuleRefused modules.now fault) }
{
    match fault {
        CommandFault::File(number, refusal) => {
            let file = text_of(alloc, modules[number].file.as_str())?;
            Ok(Answer::Refused(file, refusal))
        }
        CommandFault::Together(_) => unreachable!(),
        CommandFault::Memory => Err(AllocError),
    }
}

/// The refusal of a plan that cannot be opened: of the file of one of its modules, or of the plan itself.
pub fn opening_refused(
    alloc: Global,
    plan: Text,
    modules: &[PlanModule],
    fault: OpenFault,
) -> Result<Answer, AllocError>
    requires { IsOpenAmong (length modules.now) fault }
    ensures { IfOk result (IsOpeningRefused plan modules.now fault) }
{
    match fault {
        OpenFault::Place(number, fault) => {
            let file = text_of(alloc, modules[number as usize].file.as_str())?;
            Ok(Answer::Refused(file, Refusal::Place(fault)))
        }
        OpenFault::Verify(number, fault) => {
            let file = text_of(alloc, modules[number as usize].file.as_str())?;
            Ok(Answer::Refused(file, Refusal::Verify(fault)))
        }
        OpenFault::NoEntry(guest) => Ok(Answer::Refused(plan, Refusal::Entry(guest))),
    }
}

/// The refusal of a bare file whose plan cannot be opened.
pub fn bare_refused(input: Text, fault: OpenFault) -> Answer
    ensures { result ≡ bare_refused input fault }
{
    match fault {
        OpenFault::Place(_, fault) => Answer::Refused(input, Refusal::Place(fault)),
        OpenFault::Verify(_, fault) => Answer::Refused(input, Refusal::Verify(fault)),
        OpenFault::NoEntry(guest) => Answer::Refused(input, Refusal::Entry(guest)),
    }
}
