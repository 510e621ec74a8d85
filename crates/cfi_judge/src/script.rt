//! The script.

ghost use Rattle.std.specs.Prelude.{◌≡◌, ◌↔◌, ◌++◌, ◌∷◌, [], List, IfOk, IsTrue, Some};
ghost use Rattle.cfi_ledger.specs.Calls.{call_due};
ghost use Rattle.cfi_valid.specs.Script.{Call, call_of, made_by_script};
ghost use Rattle.cfi_valid.specs.Valid.{HasScript};

use cfi_ledger::{Due, Journal};
use cfi_plan::{Entry, JournalLine, Plan, Who};
use cfi_report::Report;
use std::alloc::{AllocError, Global};

// The call of which a line tells what came.
fn call_of(line: JournalLine) -> Due
    ensures { call_due result ≡ call_of line }
{
    match line {
        JournalLine::LoadOk { module, .. } => Due::Load(module),
        JournalLine::LoadAgain { module, .. } => Due::Load(module),
        JournalLine::LoadFull { module } => Due::Load(module),
        JournalLine::LoadPlace { module, .. } => Due::Load(module),
        JournalLine::LoadVerify { module, .. } => Due::Load(module),
        JournalLine::LoadVersions { module, .. } => Due::Load(module),
        JournalLine::LoadEpochs { module } => Due::Load(module),
        JournalLine::LoadRetired { module } => Due::Load(module),
        JournalLine::RefreshOk { .. } => Due::Refresh,
        JournalLine::RefreshVersions { .. } => Due::Refresh,
        JournalLine::RefreshEpochs => Due::Refresh,
        JournalLine::RetireOk { module, .. } => Due::Retire(module),
        JournalLine::RetireNotLive { module } => Due::Retire(module),
        JournalLine::RetireInUse { module, .. } => Due::Retire(module),
        JournalLine::RetireVersions { module, .. } => Due::Retire(module),
        JournalLine::RetireEpochs { module } => Due::Retire(module),
    }
}

// The calls are the same.
fn is_call(one: Due, other: Due) -> bool
    ensures { IsTrue result ↔ (one ≡ other) }
{
    match (one, other) {
        (Due::Load(number), Due::Load(other)) => number == other,
        (Due::Load(_), Due::Refresh) => false,
        (Due::Load(_), Due::Retire(_)) => false,
        (Due::Refresh, Due::Refresh) => true,
        (Due::Refresh, Due::Load(_)) => false,
        (Due::Refresh, Due::Retire(_)) => false,
        (Due::Retire(number), Due::Retire(other)) => number == other,
        (Due::Retire(_), Due::Load(_)) => false,
        (Due::Retire(_), Due::Refresh) => false,
    }
}

// The call is due.
fn is_due(due: Option<Due>, call: Due) -> bool
    ensures { IsTrue result ↔ (due ≡ Some call) }
{
    match due {
        Some(one) => is_call(one, call),
        None => false,
    }
}

// Takes the call of a line, where the script asked for it, from those that are left. Whether it is the next.
fn takes(calls: &mut Journal, entry: &Entry) -> bool
    ensures taken { IsTrue result →
        made_by_script (entry.now ∷ []) ++ calls.new.left ≡ calls.old.left }
    ensures only { (left : List Call) →
        made_by_script (entry.now ∷ []) ++ left ≡ calls.old.left → IsTrue result }
{
    match entry.who {
        Who::Guest(_) => true,
        Who::Script => {
            if !is_due(calls.due(), call_of(entry.what)) {
                return false;
            }
            calls.tell(entry.who, entry.what);
            true
        }
    }
}

/// Whether the lines for which the script asked are those of its calls, in its order.
pub fn has_script(alloc: Global, plan: &Plan, report: &Report) -> Result<bool, AllocError>
    ensures { IfOk result (λ is. IsTrue is ↔ HasScript plan.now report.now) }
{
    let mut calls = Journal::new(alloc, plan.script.as_slice())?;
    for entry in report.journal.as_slice() {
        if !takes(&mut calls, entry) {
            return Ok(false);
        }
    }
    Ok(calls.due().is_none())
}
