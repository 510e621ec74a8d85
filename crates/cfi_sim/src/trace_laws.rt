//! That a trace is one, and that of the simulation.

ghost use Rattle.cfi_sim.specs.TraceOnce.{TracesAreOne, TracesFollow};

/// A plan, its modules and a schedule have one trace at most, and it goes from stage to stage as the schedule leads.
pub fn traces_are_one()
    ensures one { TracesAreOne }
    ensures follow { TracesFollow }
{}
