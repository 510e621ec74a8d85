// The end of a schedule.

ghost use Rattle.std.specs.Prelude.{IfOk};
ghost use Rattle.cfi_sim.specs.Told.{IsToldSim};
ghost use Rattle.cfi_sim.specs.inner.Standing.{IsUnderWay};

use crate::report::SimReport;
use crate::standing::Standing;
use crate::told::parts_of;
use cfi_ledger::Force;
use cfi_report::Report;
use cfi_values::Items;
use std::alloc::{AllocError, Global};

impl<'a> Standing<'a> {
    /// What there is to be told: how far the updater has come, the journal, what is in force and loaded, and each
    /// guest.
    pub(crate) fn into_report(self, alloc: Global) -> Result<SimReport, AllocError>
        requires { IsUnderWay self }
        ensures { IfOk result (IsToldSim self.entry.plan self.entry.stage) }
    {
        let guests = parts_of(alloc, self.plan, self.world.guests())?;
        let phase = self.world.phase();
        let Standing { force, .. } = self;
        let Force {
            roster,
            journal,
            epoch,
            policy,
        } = force;
        let report = Report {
            epoch,
            policy,
            modules: Items::from_vec(roster.into_lines()),
            journal: Items::from_vec(journal.into_lines()),
            guests: Items::from_vec(guests),
        };
        Ok(SimReport { phase, report })
    }
}
