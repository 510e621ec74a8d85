// The kinds of events.

ghost use Rattle.std.specs.Prelude.{◌≡◌, ◌≤◌, slice_get};
ghost use Rattle.cfi_model.specs.declared.phase.Phase.TheVariants.{Testing};
ghost use Rattle.cfi_model.specs.Phases.{phase_of};
ghost use Rattle.cfi_model.specs.World.{quiet_of};
ghost use Rattle.cfi_world.specs.Premises.{HasRoom, MayAnswer};
ghost use Rattle.cfi_world.specs.Turns.{Turn, begin_turn, guest_turn, update_turn, answer_turn, release_turn};
ghost use Rattle.cfi_world.specs.Turns.{is_registered, refused, reply_in, tested_turn};
ghost use Rattle.cfi_model.specs.Quiet.{admits};

use crate::event::Turned;
use crate::seat::{act, is_asking, is_held};
use crate::world::World;
use cfi_model::{Answer, Phase, Point, Quiet};
use cfi_word::Image;
use cfi_word::limits::MAX_EPOCH;

// Whether a QUIET word tells that its guest is registered.
fn is_registered(quiet: Quiet) -> bool
    ensures { result ≡ is_registered quiet }
{
    match quiet {
        Quiet::Unregistered => false,
        Quiet::Parked | Quiet::Published(_) => true,
    }
}

// Whether an update to an epoch may go on where a QUIET word tells this.
fn admits(versions: u32, epoch: u32, quiet: Quiet) -> bool
    requires { 2 ≤ versions }
    ensures { result ≡ admits versions epoch quiet }
{
    match quiet {
        Quiet::Unregistered | Quiet::Parked => true,
        Quiet::Published(quiet) => {
            u64::from(epoch) <= u64::from(quiet) + u64::from(versions) - 2
        }
    }
}

impl World {
    // An event of a guest.
    #[inline(always)]
    pub(super) fn go(&mut self, guest: u32) -> Turned
        ensures { record { world = self.new; answer = result } ≡
            guest_turn self.old guest (slice_get self.old.guests guest) }
    {
        let at = guest as usize;
        if at >= self.guests.len() || is_held(&self.guests[at], self.points[at]) {
            return Turned::Nothing;
        }
        act(
            &mut self.guests[at],
            &mut self.points[at],
            &mut self.quiets[at],
            &self.tables,
            self.fuel,
            guest,
        )
    }

    pub(super) fn begin(&mut self, image: Option<Image>) -> Turned
        requires { HasRoom self.old image }
        ensures { record { world = self.new; answer = result } ≡ begin_turn self.old image }
    {
        if !self.tables.is_idle() {
            return Turned::Nothing;
        }
        if self.tables.epoch() == MAX_EPOCH {
            return Turned::EpochsSpent;
        }
        self.tables.begin(image);
        self.updates += 1;
        Turned::Did
    }

    pub(super) fn update(&mut self) -> Turned
        ensures { record { world = self.new; answer = result } ≡
            update_turn self.old (phase_of self.old.tables) }
    {
        match self.tables.phase() {
            Phase::Idle => Turned::Nothing,
            Phase::Testing(guest) => self.test(guest),
            _ => {
                self.tables.store();
                Turned::Did
            }
        }
    }

    // The test of a guest's QUIET word.
    fn test(&mut self, guest: u32) -> Turned
        requires { phase_of self.old.tables ≡ Testing guest }
        ensures { record { world = self.new; answer = result } ≡
            tested_turn self.old guest (quiet_of self.old guest) }
    {
        let quiet = self.quiets[guest as usize];
        if !admits(self.tables.versions(), self.tables.next_epoch(), quiet) {
            return self.refuse(guest, quiet);
        }
        self.tables.pass();
        Turned::Did
    }

    // The update is not admitted.
    fn refuse(&mut self, guest: u32, quiet: Quiet) -> Turned
        ensures { record { world = self.new; answer = result } ≡ refused self.old guest quiet }
    {
        match quiet {
            Quiet::Unregistered | Quiet::Parked => Turned::Nothing,
            Quiet::Published(quiet) => {
                self.tables.refuse();
                Turned::VersionsSpent { guest, quiet }
            }
        }
    }

    pub(super) fn answer(&mut self, guest: u32, answer: &Answer<'_>) -> Turned
        requires { MayAnswer self.old (reply_in answer.now) }
        ensures { record { world = self.new; answer = result } ≡
            answer_turn self.old guest (reply_in answer.now) (slice_get self.old.guests guest) }
    {
        let at = guest as usize;
        if at >= self.guests.len() || !is_asking(self.points[at]) {
            return Turned::Nothing;
        }
        self.guests[at].answer(answer);
        self.points[at] = Point::Leaving;
        Turned::Did
    }

    pub(super) fn release(&mut self, guest: u32) -> Turned
        ensures { record { world = self.new; answer = result } ≡
            release_turn self.old guest (slice_get self.old.guests guest) }
    {
        let at = guest as usize;
        if at >= self.guests.len() || self.guests[at].stop().is_none() {
            return Turned::Nothing;
        }
        if !is_registered(self.quiets[at]) || !self.tables.is_idle() {
            return Turned::Nothing;
        }
        self.quiets[at] = Quiet::Unregistered;
        Turned::Did
    }
}
