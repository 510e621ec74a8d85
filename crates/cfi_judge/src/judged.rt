//! The judge of a whole report.

ghost use Rattle.std.specs.Prelude.{◌≡◌, IfErr, IfOk, OnOk, length};
ghost use Rattle.cfi_judge.specs.Judge.{HoldsToGuests, IsJudgeFault};
ghost use Rattle.cfi_judge.specs.Reached.{state_of};
ghost use Rattle.cfi_judge.specs.declared.fault.JudgeFault.TheVariants.{Memory};
ghost use Rattle.cfi_judge.specs.inner.Ending.{IsEnding};
ghost use Rattle.cfi_judge.specs.inner.Faults.{start_fault};
ghost use Rattle.cfi_judge.specs.inner.Reached.{IsReached};
ghost use Rattle.cfi_ledger.specs.Plans.{CanStart};
ghost use Rattle.cfi_ledger.specs.Starts.{AreStarted};
ghost use Rattle.cfi_report.specs.declared.report.Report.{Report as AnyReport};
ghost use Rattle.cfi_valid.specs.Valid.{IsValidReport};

use crate::fault::JudgeFault;
use crate::guests::has_guests;
use crate::journal::end_reached;
use crate::modules::has_modules;
use crate::reached::Reached;
use crate::script::has_script;
use crate::trial::Trial;
use cfi_aux::Module;
use cfi_ledger::{Roster, StartFault, start_modules};
use cfi_modules::loaded_have_entries;
use cfi_plan::Plan;
use cfi_report::Report;
use cfi_word::Layout;
use std::alloc::Global;

// The fault of a report where start modules do not join.
fn start_fault(fault: &StartFault) -> JudgeFault
    ensures { result ≡ start_fault fault.now }
{
    match fault {
        StartFault::Open(_) => JudgeFault::Modules,
        StartFault::Memory => JudgeFault::Memory,
    }
}

// The start modules of a plan. Where one does not join those before it, no report has the modules of the plan.
fn started(alloc: Global, plan: &Plan, modules: &[Module]) -> Result<Roster, JudgeFault>
    requires { CanStart plan.now modules.now }
    ensures ok { IfOk result (AreStarted plan.now modules.now (length plan.now.modules)) }
    ensures fault { (report : AnyReport) →
        IfErr result (IsJudgeFault plan.now modules.now report) }
{
    let layout = Layout::new(plan.code_words).unwrap();
    match start_modules(alloc, &layout, plan, modules) {
        Ok(roster) => Ok(roster),
        Err(fault) => Err(start_fault(&fault)),
    }
}

// Where the journal of a report leads, and whether the report has the guests.
#[derive(Drop)]
struct Ending {
    // The state.
    reached: Reached,
    // The guests are those of the plan, each with somewhere to begin.
    has_guests: bool,
}

// The ending of a report that has the modules and the journal.
fn ending_of(
    alloc: Global,
    plan: &Plan,
    modules: &[Module],
    report: &Report,
) -> Result<Ending, JudgeFault>
    requires { CanStart plan.now modules.now }
    ensures ok { IfOk result (IsEnding plan.now modules.now report.now) }
    ensures fault { IfErr result (IsJudgeFault plan.now modules.now report.now) }
{
    let starts = started(alloc, plan, modules)?;
    let listed = has_modules(alloc, plan, modules, &starts, report)?;
    if !listed {
        return Err(JudgeFault::Modules);
    }
    loaded_have_entries();
    let entered = has_guests(plan, starts.modules(), report);
    let reached = end_reached(alloc, plan, modules, starts, report)?;
    Ok(Ending {
        reached,
        has_guests: entered,
    })
}

// The state to which the journal of a report leads that has the script and the guests too.
fn end_of(
    alloc: Global,
    plan: &Plan,
    modules: &[Module],
    report: &Report,
) -> Result<Reached, JudgeFault>
    requires { CanStart plan.now modules.now }
    ensures ok { IfOk result (λ end.
        HoldsToGuests plan.now modules.now report.now (state_of end)) }
    ensures reached { IfOk result (IsReached plan.now modules.now) }
    ensures fault { IfErr result (IsJudgeFault plan.now modules.now report.now) }
{
    let ending = ending_of(alloc, plan, modules, report)?;
    let called = has_script(alloc, plan, report)?;
    if !called {
        return Err(JudgeFault::Script);
    }
    if !ending.has_guests {
        return Err(JudgeFault::Guests);
    }
    Ok(ending.reached)
}

// Judges the parts of a report, one after the other.
fn judge_parts(
    alloc: Global,
    plan: &Plan,
    modules: &[Module],
    report: &Report,
) -> Result<(), JudgeFault>
    requires { CanStart plan.now modules.now }
    ensures ok { OnOk result (IsValidReport plan.now modules.now report.now) }
    ensures fault { IfErr result (IsJudgeFault plan.now modules.now report.now) }
{
    let end = end_of(alloc, plan, modules, report)?;
    let trial = Trial {
        plan,
        modules,
        report,
        end: &end,
    };
    match trial.first_unlogged() {
        Some(number) => Err(JudgeFault::Log(number)),
        None => trial.replay(alloc),
    }
}

/// Whether a report is a valid one of a plan and its modules; else the first part that fails.
///
/// `modules` are those of the plan, one a line. The parts are judged over all guests in turn, and each guest is
/// replayed at most once; no run is trusted.
pub fn judge(
    alloc: Global,
    plan: &Plan,
    modules: &[Module],
    report: &Report,
) -> Result<(), JudgeFault>
    requires { CanStart plan.now modules.now }
    ensures ok { OnOk result (IsValidReport plan.now modules.now report.now) }
    ensures fault { IfErr result (IsJudgeFault plan.now modules.now report.now) }
    ensures only { IsValidReport plan.now modules.now report.now →
        IfErr result (λ fault. fault ≡ Memory) }
{
    judge_parts(alloc, plan, modules, report)
}
