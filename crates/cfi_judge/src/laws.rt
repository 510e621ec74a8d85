//! What the parts have of one another.

ghost use Rattle.std.specs.Prelude.{List, length};
ghost use Rattle.cfi_aux.specs.declared.modules.Module.{Module};
ghost use Rattle.cfi_judge.specs.Guests.{HasStarts};
ghost use Rattle.cfi_ledger.specs.Plans.{CanStart};
ghost use Rattle.cfi_ledger.specs.Roster.{Roster};
ghost use Rattle.cfi_ledger.specs.Starts.{AreStarted};
ghost use Rattle.cfi_plan.specs.declared.plan.Plan.{Plan};
ghost use Rattle.cfi_report.specs.declared.report.Report.{Report};
ghost use Rattle.cfi_valid.specs.Journal.{JournalState};
ghost use Rattle.cfi_valid.specs.Valid.{HasJournal, course_of};

/// The start modules of a plan are those of each course that a report of it tells, so that its guests are judged
/// against them.
pub fn starts_stay()
    ensures { (plan : Plan) (modules : List Module) (starts : Roster) (report : Report)
        (end : JournalState) → CanStart plan modules →
        AreStarted plan modules (length plan.modules) starts →
        HasJournal plan modules report end →
        HasStarts plan starts.placed (course_of plan modules report end) }
{}
