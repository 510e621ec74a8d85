//! The headline, as laws: what is promised of each guest.

ghost use Rattle.cfi_guest_run.specs.Concluded.{Conclusion};
ghost use Rattle.cfi_top.specs.Headline.{GuestsKeepTheHeadline, RunsKeepTheHeadline};
ghost use Rattle.cfi_top.specs.Promises.{GuestsAskInForce, GuestsKeepPolicies, GuestsEnterUnits, GuestsStoreInside};

/// Each guest keeps what is promised of it.
///
/// `guests`: one that is opened at a start, whatever words of the tables and answers come to it. `runs`: one of which a
/// part of a report tells.
pub fn guests_keep_the_headline()
    ensures guests { GuestsKeepTheHeadline }
    ensures runs { RunsKeepTheHeadline }
{}

/// The headline, promise by promise, of each run that was concluded.
///
/// `policies`: its guests do, unit by unit, what the policy machine does, and their checks keep to the policy that they
/// ask. `in_force`: that policy is in force in the check's window. `enters`: they never enter a unit's middle.
/// `stores`: they never store outside their own data.
pub fn concluded_runs_keep_the_headline()
    ensures policies { (run : Conclusion) → GuestsKeepPolicies run }
    ensures in_force { (run : Conclusion) → GuestsAskInForce run }
    ensures enters { (run : Conclusion) → GuestsEnterUnits run }
    ensures stores { (run : Conclusion) → GuestsStoreInside run }
{}
