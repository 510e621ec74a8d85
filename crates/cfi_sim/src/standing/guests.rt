// Events of guests.

ghost use Rattle.std.specs.Prelude.{◌≡◌, ◌<◌};
ghost use Rattle.cfi_ledger.specs.Policies.{HavePolicies};
ghost use Rattle.cfi_model.specs.Words.{policy_in_force};
ghost use Rattle.cfi_modules.specs.Series.{IsSeries};
ghost use Rattle.cfi_sim.specs.Agrees.{NumbersAreApart};
ghost use Rattle.cfi_sim.specs.declared.limits.TheConstants.{MAX_EVENTS};
ghost use Rattle.cfi_sim.specs.inner.Standing.{AnswersOpen, GoesBy, ReleasesBy, IsThere, IsUnderWay};
ghost use Rattle.cfi_valid.specs.Loaded.{placed_modules};

use crate::opens::find;
use crate::standing::Standing;
use cfi_world::{Event, Turned};

impl<'a> Standing<'a> {
    // Answers the open of a guest that waits for it.
    fn answer(&mut self, guest: u32, number: u32)
        requires policy { policy_in_force self.old.stage.world.tables
            ≡ self.old.stage.state.policy }
        requires policies { HavePolicies self.old.plan self.old.stage.state }
        requires series { IsSeries self.old.plan.code_words
            (placed_modules self.old.stage.state.loaded) }
        requires apart { NumbersAreApart self.old.stage.state.loaded }
        requires there { IsThere self.old.stage.world guest }
        ensures { AnswersOpen self.old self.new guest number }
    {
        let found = find(self.plan, &self.world, &self.force.roster, number);
        let first = self
            .force
            .due_from(self.world.guests()[guest as usize].log());
        let answer = found.answer(self.force.policy, self.force.roster.data(), first);
        let _ = self.world.turn(Event::Answer(guest, answer));
    }

    /// An event of a guest. False where it has none: it has stopped.
    #[inline(always)]
    pub(super) fn go(&mut self, guest: u32) -> bool
        requires under_way { IsUnderWay self.old }
        requires few { self.old.stage.events < MAX_EVENTS }
        ensures { GoesBy guest self.old self.new result }
    {
        match self.world.turn(Event::Guest(guest)) {
            Turned::Nothing => return false,
            Turned::Asks { module, .. } => self.answer(guest, module),
            Turned::Did | Turned::VersionsSpent { .. } | Turned::EpochsSpent => {}
        }
        self.events += 1;
        true
    }

    /// Releases the data of a guest. False where nothing is to be released.
    #[inline(always)]
    pub(super) fn release(&mut self, guest: u32) -> bool
        requires under_way { IsUnderWay self.old }
        requires few { self.old.stage.events < MAX_EVENTS }
        ensures { ReleasesBy guest self.old self.new result }
    {
        match self.world.turn(Event::Release(guest)) {
            Turned::Nothing => return false,
            Turned::Did
            | Turned::Asks { .. }
            | Turned::VersionsSpent { .. }
            | Turned::EpochsSpent => {}
        }
        self.events += 1;
        true
    }
}
