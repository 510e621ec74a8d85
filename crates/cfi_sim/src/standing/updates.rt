// Updates that begin.

ghost use Rattle.std.specs.Prelude.{◌≡◌, IfOk, OnOk, Option};
ghost use Rattle.cfi_sim.specs.Events.{IsRefreshEvent};
ghost use Rattle.cfi_sim.specs.inner.Making.{with_told, BeginsBy, MakesBy, CanBegin};
ghost use Rattle.cfi_sim.specs.inner.Pending.{aim_by};
ghost use Rattle.cfi_sim.specs.inner.Standing.{IsUnderWay, PendingFits};

use crate::limits::{MAX_EVENTS, MAX_UPDATES};
use crate::opens::is_idle;
use crate::pending::Pending;
use crate::standing::Standing;
use cfi_plan::{JournalLine, Who};
use cfi_word::Image;
use cfi_word::limits::MAX_EPOCH;
use cfi_world::Event;
use std::alloc::AllocError;

impl<'a> Standing<'a> {
    // Adds a line to the journal.
    pub(super) fn tell(&mut self, what: JournalLine) -> Result<(), AllocError>
        ensures { OnOk result (self.new ≡ with_told what self.old) }
    {
        self.force.journal.reserve()?;
        self.force.tell(Who::Script, what);
        Ok(())
    }

    // Begins an update, or tells that no epoch is left. False where one is under way, or a limit would be passed.
    pub(super) fn begin(
        &mut self,
        pending: Pending,
        spent: JournalLine,
        image: Option<Image>,
    ) -> Result<bool, AllocError>
        requires under_way { IsUnderWay self.old }
        requires fits { PendingFits self.old pending }
        requires may { CanBegin self.old.stage.world image }
        ensures { IfOk result (BeginsBy (aim_by pending) spent image self.old self.new) }
    {
        if self.events >= MAX_EVENTS {
            return Ok(false);
        }
        if !is_idle(self.world.phase()) {
            return Ok(false);
        }
        if self.world.epoch() == MAX_EPOCH {
            self.events += 1;
            self.tell(spent)?;
            return Ok(true);
        }
        if self.world.updates() >= MAX_UPDATES {
            return Ok(false);
        }
        let _ = self.world.turn(Event::Begin(image));
        self.pending = Some(pending);
        self.events += 1;
        Ok(true)
    }

    /// Begins a refresh, or tells that no epoch is left. False where an update is under way, or a limit would be
    /// passed.
    pub(super) fn refresh(&mut self) -> Result<bool, AllocError>
        requires { IsUnderWay self.old }
        ensures { IfOk result (MakesBy IsRefreshEvent self.old self.new) }
    {
        let begun = self.begin(Pending::Refresh, JournalLine::RefreshEpochs, None)?;
        Ok(begun)
    }
}
