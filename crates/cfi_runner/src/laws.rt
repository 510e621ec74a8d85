//! What runs of a guest come to.

ghost use Rattle.cfi_runner.specs.Laws.{AdmittedSee, NotedSee, OpenedCanRun, QuietSee, SeesGoOn, SightIsHistory};
ghost use Rattle.cfi_runner.specs.Laws.{RunsAreTaken, RunsJoin, RunsShow, ServicesHandOn, SomeIsServed};

/// A guest that has run shows the policy machine, over whatever history its pass has seen since.
///
/// The unit in which it has paused is told too: a service is asked for by the unit at which the guest stands, and a
/// check or a masked access that has stopped it is the last unit that was run. A check stops it only before a target
/// outside the code, or where two words of one epoch have different classes.
pub fn a_run_shows_the_policy_machine()
    ensures { RunsShow }
{}

/// A guest whose service has ended, and that has not stopped, can run on with all that its pass has seen by then.
pub fn a_service_hands_on()
    ensures { ServicesHandOn }
{}

/// Runs compose.
///
/// `joins`: two runs with a service between them are one run of the raw machine, which fits whatever history the pass
/// has seen since. `taken`: what a run appends to its pass's accesses brings what it was given.
pub fn runs_compose()
    ensures joins { RunsJoin }
    ensures taken { RunsAreTaken }
{}

/// What passes see between the runs of their guests.
///
/// `history`: it is one, over which `raw_shows_policy` speaks of what a guest has taken.
/// `admitted`: at an admission or with a note all that the keeper has seen, with the starts of the last image. `noted`
/// and `quiet`: a note and a quiescent point leave what was seen. `goes_on`: and so one after the other.
pub fn passes_see_more()
    ensures history { SightIsHistory }
    ensures admitted { AdmittedSee }
    ensures noted { NotedSee }
    ensures quiet { QuietSee }
    ensures goes_on { SeesGoOn }
{}

/// The premises can be met.
///
/// `opened`: by each guest that is opened at a start which its pass has seen in force. `served`: by some guest that
/// asks for a service, and can run on after it.
pub fn some_guest_can_run()
    ensures opened { OpenedCanRun }
    ensures served { SomeIsServed }
{}
