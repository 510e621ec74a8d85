//! That there is a valid simulation, and that schedules go event by event and keep their journals legal.

ghost use Rattle.std.specs.Prelude.{[], ◌∷◌};
ghost use Rattle.cfi_sim.specs.Agrees.{AgreeingTell};
ghost use Rattle.cfi_sim.specs.Example.{still};
ghost use Rattle.cfi_sim.specs.Once.{SimulationsAreOne, NoneBesideABadLine};
ghost use Rattle.cfi_sim.specs.Reach.{SchedulesReach, SchedulesJournal};
ghost use Rattle.cfi_sim.specs.Told.{SchedulesAreValid};
ghost use Rattle.cfi_sim.specs.Valid.{IsValidSim};
ghost use Rattle.cfi_plan.specs.Bare.{bare_plan};
ghost use Rattle.cfi_valid.specs.Example.{hello_module};

/// What a schedule without a line makes of a bare file is a valid simulation: the guest stands at its entry.
pub fn some_simulation_is_valid()
    ensures { IsValidSim bare_plan (hello_module ∷ []) [] still }
{}

/// What a schedule makes comes of events, one after the other.
pub fn schedules_reach()
    ensures { SchedulesReach }
{}

/// The journal of a schedule is one that a run may have: each event keeps it legal, and leaves a world that agrees with
/// it.
pub fn schedules_keep_journals()
    ensures { SchedulesJournal }
{}

/// A world whose epoch in force, versions and guests are those of the journal tells of epochs and versions what the
/// journal does.
pub fn agreeing_worlds_tell()
    ensures { AgreeingTell }
{}

/// A simulation is one: two valid ones of one plan, its modules and one schedule are equal, and there is none beside a
/// first line that leads nowhere.
pub fn simulations_are_one()
    ensures one { SimulationsAreOne }
    ensures none { NoneBesideABadLine }
{}

/// What is told of the end of a schedule is a valid simulation: each event leaves a guest's replay as it was, or makes
/// it one unit longer, and what it has logged fits.
pub fn schedules_make_valid_simulations()
    ensures { SchedulesAreValid }
{}
