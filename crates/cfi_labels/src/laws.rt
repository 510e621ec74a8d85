//! Which loaded modules have labels.

ghost use Rattle.std.specs.Prelude.{List};
ghost use Rattle.cfi_aux.specs.declared.modules.Module.{Module};
ghost use Rattle.cfi_labels.specs.Labels.{ComeInOrder};
ghost use Rattle.cfi_ledger.specs.Plans.{CanStart};
ghost use Rattle.cfi_plan.specs.declared.plan.Plan.{Plan};
ghost use Rattle.cfi_report.specs.declared.report.Report.{Report};
ghost use Rattle.cfi_valid.specs.Journal.{JournalState};
ghost use Rattle.cfi_valid.specs.Valid.{HasJournal};

/// The modules to which the journal of a report leads came with policies that never fall.
pub fn journals_load_in_order()
    ensures { (plan : Plan) (modules : List Module) (report : Report) (end : JournalState) →
        CanStart plan modules → HasJournal plan modules report end → ComeInOrder end.loaded }
{}
