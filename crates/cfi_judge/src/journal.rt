//! The journal.

ghost use Rattle.std.specs.Prelude.{◌≡◌, ◌↔◌, ℕ, IfErr, IfOk, IsTrue, OnErr, OnOk, length};
ghost use Rattle.cfi_judge.specs.Journal.{IsJournalFault, HasForce};
ghost use Rattle.cfi_judge.specs.inner.Reached.{IsReached};
ghost use Rattle.cfi_judge.specs.inner.Walk.{at_line, IsWalkFault};
ghost use Rattle.cfi_judge.specs.Reached.{StandsIn, state_of};
ghost use Rattle.cfi_judge.specs.declared.fault.JournalFault.TheVariants.{Line};
ghost use Rattle.cfi_ledger.specs.Plans.{CanStart};
ghost use Rattle.cfi_ledger.specs.Starts.{AreStarted, opened_state};
ghost use Rattle.cfi_valid.specs.Journal.{JournalState, EntriesLead};
ghost use Rattle.cfi_valid.specs.Valid.{HasJournal};

use crate::fault::{JournalFault, LineFault};
use crate::reached::Reached;
use cfi_aux::Module;
use cfi_ledger::Roster;
use cfi_plan::{Entry, Plan};
use cfi_report::Report;
use std::alloc::{AllocError, Global};

/// The fault of the journal whose line of this number has a fault.
pub(crate) fn at_line(number: usize, fault: LineFault) -> JournalFault
    ensures { result ≡ at_line number fault }
{
    match fault {
        LineFault::Illegal => JournalFault::Line(number),
        LineFault::Memory => JournalFault::Memory,
    }
}

// The state before the first line, of a roster that has the start modules.
fn opened(
    alloc: Global,
    plan: &Plan,
    modules: &[Module],
    roster: Roster,
) -> Result<Reached, AllocError>
    requires can { CanStart plan.now modules.now }
    requires started { AreStarted plan.now modules.now (length plan.now.modules) roster }
    ensures state { IfOk result (λ start. state_of start ≡ opened_state plan.now roster) }
    ensures reached { IfOk result (IsReached plan.now modules.now) }
{
    let start = Reached {
        epoch: plan.first,
        policy: 0,
        roster,
        rows: Vec::new(alloc),
    };
    start.with_row(alloc, modules)
}

// The state to which all lines lead, from the opening on. They are gone through once.
fn follow(
    alloc: Global,
    plan: &Plan,
    modules: &[Module],
    roster: Roster,
    journal: &[Entry],
) -> Result<Reached, JournalFault>
    requires can { CanStart plan.now modules.now }
    requires started { AreStarted plan.now modules.now (length plan.now.modules) roster }
    ensures ok { IfOk result (λ end. EntriesLead plan.now modules.now
        (opened_state plan.now roster) journal.now (state_of end)) }
    ensures reached { IfOk result (IsReached plan.now modules.now) }
    ensures fault { IfErr result
        (IsWalkFault plan.now modules.now (opened_state plan.now roster) journal.now) }
{
    let mut reached = opened(alloc, plan, modules, roster)?;
    for (number, entry) in journal.iter().enumerate() {
        let next = match reached.lead(plan, modules, entry) {
            Ok(next) => next,
            Err(fault) => return Err(at_line(number, fault)),
        };
        reached = next.with_row(alloc, modules)?;
    }
    Ok(reached)
}

impl Reached {
    // The force of a report is that of the state.
    fn has_force(&self, report: &Report) -> bool
        ensures { IsTrue result ↔ HasForce report.now (state_of self.now) }
    {
        report.epoch == self.epoch && report.policy == self.policy
    }

    // The state, where its force is that of the report.
    fn with_force(self, report: &Report) -> Result<Reached, JournalFault>
        ensures same { IfOk result (λ end. end ≡ self) }
        ensures ok { OnOk result (HasForce report.now (state_of self)) }
        ensures fault { IfErr result (λ fault. fault ≡ Line (length report.now.journal)) }
        ensures other { OnErr result (¬ HasForce report.now (state_of self)) }
    {
        if self.has_force(report) {
            return Ok(self);
        }
        Err(JournalFault::Line(report.journal.len()))
    }
}

/// The same as `journal_end`, with the rows of the state.
pub(crate) fn end_reached(
    alloc: Global,
    plan: &Plan,
    modules: &[Module],
    roster: Roster,
    report: &Report,
) -> Result<Reached, JournalFault>
    requires can { CanStart plan.now modules.now }
    requires started { AreStarted plan.now modules.now (length plan.now.modules) roster }
    ensures ok { IfOk result (λ end.
        HasJournal plan.now modules.now report.now (state_of end)) }
    ensures reached { IfOk result (IsReached plan.now modules.now) }
    ensures fault { IfErr result (IsJournalFault plan.now modules.now report.now) }
{
    match follow(alloc, plan, modules, roster, report.journal.as_slice()) {
        Ok(end) => end.with_force(report),
        Err(fault) => Err(fault),
    }
}

/// The state to which the journal of a report leads, each line being legal where it stands, where its force is that of
/// the report; else the first line that is not legal, or the number of lines where the force is another.
///
/// `roster` has the start modules of the plan, and `modules` are those of the plan, one a line. Each module is tried
/// once behind the modules of each policy, however many lines tell of it.
pub fn journal_end(
    alloc: Global,
    plan: &Plan,
    modules: &[Module],
    roster: Roster,
    report: &Report,
) -> Result<Reached, JournalFault>
    requires can { CanStart plan.now modules.now }
    requires started { AreStarted plan.now modules.now (length plan.now.modules) roster }
    ensures ok { IfOk result (λ end.
        HasJournal plan.now modules.now report.now (state_of end)) }
    ensures stands { IfOk result (StandsIn plan.now) }
    ensures fault { IfErr result (IsJournalFault plan.now modules.now report.now) }
    ensures only { (number : ℕ) (end : JournalState) →
        HasJournal plan.now modules.now report.now end →
        IfErr result (λ fault. ¬ (fault ≡ Line number)) }
{
    end_reached(alloc, plan, modules, roster, report)
}
