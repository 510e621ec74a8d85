//! What holds at every moment.

ghost use Rattle.cfi_model_law.specs.Force.{TriesHoldPolicies};
ghost use Rattle.cfi_model_law.specs.Moments.{GuestsAreConfined};
ghost use Rattle.cfi_model_law.specs.Ready.{RunsStayReady};
ghost use Rattle.cfi_model_law.specs.Window.{ChecksAskInForce};

/// At every moment a guest runs a unit that it has entered at its start, and stores in its own data alone.
pub fn guests_are_confined()
    ensures { GuestsAreConfined }
{}

/// From the moment at which a slot's word is of an epoch to that at which an address's word is of it, the epoch is in
/// force, and its policy with it.
pub fn tries_hold_policies()
    ensures { TriesHoldPolicies }
{}

/// A guest that was opened at a start runs unit by unit, each check under the policy of an epoch that is in force in
/// the check's window: from the moment of the load of its slot's word to that of the load of its target's, in its last
/// try.
pub fn checks_ask_in_force()
    ensures { ChecksAskInForce }
{}

/// After however many units the policy machine is ready for the next one.
pub fn runs_stay_ready()
    ensures { RunsStayReady }
{}
