//! The raw machine shows the policy machine: the law that every run of a guest stands on.

ghost use Rattle.cfi_model.specs.Shows.{RawShowsPolicy, RawHasSteps, FixedIsHistory, OpenedIsReady};
ghost use Rattle.cfi_model.specs.Running.{OpenedRuns, RestingRuns, RunningGoesOn, RunningGrows};
ghost use Rattle.cfi_model.specs.Running.{RunningShows, RunningHasSteps, OnlyChecksHalt};

/// From a state that shows one of the policy machine, the raw machine shows a later one, whatever fits comes.
///
/// What fits is the code's word, a table word of some epoch of the history, fair to the one before, and an answer.
/// `shows`: the policy machine has run one unit for each that has ended; a check that asked the policy ran under that
/// of the one epoch whose Bary word and Tary word were kept when it ended. `steps`: a raw machine that waits for
/// nothing has a step for the code's word.
pub fn raw_shows_policy()
    ensures shows { RawShowsPolicy }
    ensures steps { RawHasSteps }
{}

/// The law of a guest that runs, one access after the other, for a history and a code that grow.
///
/// `starts` and `rests`: a guest that is opened at a start, or whose unit has ended, runs. `goes_on`: one access more
/// leaves what it shows as it was, or ends its unit. `grows`: a longer history and more code leave it running. `shows`
/// and `steps`: what it shows, and that it has a step for what it fetches. `halts`: only a check stops a guest with
/// Halt, for a target outside the code or a pair that one epoch's classes forbid.
pub fn a_guest_runs()
    ensures starts { OpenedRuns }
    ensures rests { RestingRuns }
    ensures goes_on { RunningGoesOn }
    ensures grows { RunningGrows }
    ensures shows { RunningShows }
    ensures steps { RunningHasSteps }
    ensures halts { OnlyChecksHalt }
{}

/// The premises of the law are met by a guest that is opened at a start of a closed image.
pub fn an_opened_guest_shows()
    ensures history { FixedIsHistory }
    ensures ready { OpenedIsReady }
{}
