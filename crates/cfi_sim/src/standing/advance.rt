// Accesses of the updater.

ghost use Rattle.std.specs.Prelude.{◌≡◌, ◌<◌, IfOk, OnOk, None};
ghost use Rattle.cfi_sim.specs.Stage.{versions_line};
ghost use Rattle.cfi_sim.specs.inner.Making.{with_dropped, with_entered, with_refreshed, AdvancesBy, FitsAim, HasCome, NotesBy};
ghost use Rattle.cfi_sim.specs.declared.pending.Pending.TheVariants.{Load};
ghost use Rattle.cfi_sim.specs.inner.Standing.{IsUnderWay, PendingFits};
ghost use Rattle.cfi_word.specs.declared.limits.TheConstants.{MAX_EPOCH, MAX_POLICY};

use crate::aim::Aim;
use crate::limits::MAX_EVENTS;
use crate::opens::is_idle;
use crate::pending::Pending;
use crate::standing::Standing;
use cfi_ledger::Offer;
use cfi_model::Phase;
use cfi_plan::{JournalLine, Who};
use cfi_world::{Event, Turned};
use std::alloc::AllocError;

// The line that tells why an update was not made.
fn versions_line(aim: Aim, guest: u32, quiet: u32) -> JournalLine
    ensures { result ≡ versions_line aim guest quiet }
{
    match aim {
        Aim::Loading(module) => JournalLine::LoadVersions {
            module,
            guest,
            quiet,
        },
        Aim::Refreshing => JournalLine::RefreshVersions { guest, quiet },
    }
}

impl<'a> Standing<'a> {
    // The update is not made.
    fn drop_update(&mut self, guest: u32, quiet: u32) -> Result<(), AllocError>
        ensures { OnOk result (self.new ≡ with_dropped guest quiet self.old) }
    {
        let Some(pending) = self.pending.take() else {
            return Ok(());
        };
        self.tell(versions_line(pending.aim(), guest, quiet))?;
        Ok(())
    }

    // The module is loaded from now on, as it was placed when its load began.
    fn enter(&mut self, offer: Offer) -> Result<(), AllocError>
        requires none { self.old.stage.aim ≡ None }
        requires fits { PendingFits self.old (Load offer) }
        requires left { self.old.stage.state.epoch < MAX_EPOCH }
        requires few { self.old.stage.state.policy < MAX_POLICY }
        ensures { OnOk result (self.new ≡ with_entered offer self.old) }
    {
        let number = offer.number();
        self.force.journal.reserve()?;
        self.force.roster.take(offer)?;
        self.force.put_load(Who::Script, number);
        Ok(())
    }

    // The next epoch is in force from now on.
    fn end_refresh(&mut self) -> Result<(), AllocError>
        requires none { self.old.stage.aim ≡ None }
        requires left { self.old.stage.state.epoch < MAX_EPOCH }
        ensures { OnOk result (self.new ≡ with_refreshed self.old) }
    {
        self.force.journal.reserve()?;
        self.force.put_refresh(Who::Script);
        Ok(())
    }

    // The update is in force from now on.
    fn make(&mut self) -> Result<(), AllocError>
        requires { FitsAim self.old }
        ensures { OnOk result (HasCome self.old self.new) }
    {
        match self.pending.take() {
            None => Ok(()),
            Some(Pending::Load(offer)) => self.enter(offer),
            Some(Pending::Refresh) => self.end_refresh(),
        }
    }

    // What an access in a phase means for the journal, where the update goes on.
    fn note(&mut self, phase: Phase) -> Result<(), AllocError>
        requires { FitsAim self.old }
        ensures { OnOk result (NotesBy phase self.old self.new) }
    {
        match phase {
            Phase::Epoch => self.make(),
            Phase::Idle | Phase::Testing(_) | Phase::Code(_) | Phase::Tary(_) | Phase::Bary(_) =>
                Ok(()),
        }
    }

    /// The next access of the updater. False where no update is under way, or there were too many events.
    pub(super) fn advance(&mut self) -> Result<bool, AllocError>
        requires under_way { IsUnderWay self.old }
        ensures { IfOk result (AdvancesBy self.old self.new) }
    {
        if self.events >= MAX_EVENTS {
            return Ok(false);
        }
        let phase = self.world.phase();
        if is_idle(phase) {
            return Ok(false);
        }
        self.events += 1;
        let turned = self.world.turn(Event::Update);
        if let Turned::VersionsSpent { guest, quiet } = turned {
            self.drop_update(guest, quiet)?;
        } else {
            self.note(phase)?;
        }
        Ok(true)
    }
}
