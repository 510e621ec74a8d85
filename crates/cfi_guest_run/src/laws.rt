//! What holds of runners.

ghost use Rattle.cfi_guest_run.specs.Laws.{LogsLast, PointsKeep, RunnersMakeParts, RunsKeep, ServicesKeep, SightsKeep};

/// What a runner keeps, it keeps when its pass sees more, with a run of its guest, and with the end of a service and
/// the quiescent point that comes straight behind.
pub fn runners_go_on()
    ensures sights { SightsKeep }
    ensures runs { RunsKeep }
    ensures services { ServicesKeep }
    ensures points { PointsKeep }
{}

/// What a guest has logged lasts while the run goes on.
pub fn logs_last()
    ensures { LogsLast }
{}

/// A guest that has stopped has a valid part, where the ledger at the end agrees with what its pass has seen.
pub fn runners_make_parts()
    ensures { RunnersMakeParts }
{}
