//! A simulation under way.

ghost use Rattle.std.specs.Prelude.{◌≡◌};
ghost use Rattle.cfi_ledger.specs.Roster.{IsRosterOf, series_of};
ghost use Rattle.cfi_modules.specs.Series.{AreAllLive};
ghost use Rattle.cfi_sim.specs.inner.Standing.{whole_at};

use crate::pending::Pending;
use cfi_aux::Module;
use cfi_ledger::{Force, Journal, Roster};
use cfi_plan::Plan;
use cfi_world::World;
use std::alloc::Global;
use std::marker::Model;

mod advance;
mod guests;
mod lines;
mod loads;
mod report;
mod telling;
mod updates;

/// Where a schedule has come to: the world, what is in force, with the journal, and what the update under way is for.
#[derive(Drop)]
pub struct Standing<'a> {
    plan: &'a Plan,
    modules: &'a [Module],
    world: World,
    force: Force,
    pending: Option<Pending>,
    events: u32,
}

impl<'a> Model for Standing<'a> {
    ghost use Rattle.cfi_sim.specs.inner.Standing.{Whole, whole_inside, RosterFits};

    ghost Value = { Whole };

    ghost view = { whole_inside };

    ghost invariant = { RosterFits };
}

impl<'a> Standing<'a> {
    /// A simulation whose schedule has made nothing yet. It takes no memory.
    pub(crate) fn new(
        alloc: Global,
        plan: &'a Plan,
        modules: &'a [Module],
        world: World,
        roster: Roster,
    ) -> Standing<'a>
        requires roster { IsRosterOf plan.now roster }
        requires live { AreAllLive (series_of roster) }
        ensures { result ≡ whole_at plan.now modules.now world roster }
    {
        Standing {
            plan,
            modules,
            world,
            force: Force::open(plan, roster, Journal::unscripted(alloc)),
            pending: None,
            events: 0,
        }
    }
}
