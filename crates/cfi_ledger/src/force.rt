//! What is in force, with the journal that leads to it.

ghost use Rattle.std.specs.Prelude.{◌≡◌, ◌+◌, ◌<◌, length};
ghost use Rattle.cfi_plan.specs.declared.journal.JournalLine.TheVariants.{LoadOk, RefreshOk, RetireOk};
ghost use Rattle.cfi_valid.specs.Loaded.{planned_name};
ghost use Rattle.cfi_valid.specs.Replay.{given_by};
ghost use Rattle.cfi_word.specs.declared.limits.TheConstants.{MAX_EPOCH, MAX_POLICY};
ghost use Rattle.cfi_ledger.specs.Force.{count_by_policy, force_at, with_change, with_refresh};
ghost use Rattle.cfi_ledger.specs.Journal.{HasLine, HasRoomFor, asked_by};

use crate::entrant::Entrant;
use crate::journal::Journal;
use crate::opens::given_by;
use crate::roster::Roster;
use cfi_plan::{JournalLine, Plan, Who};
use cfi_unit::Log;

/// The loaded modules, the journal, and the epoch and the policy to which it leads.
#[derive(Drop)]
pub struct Force {
    /// The loaded modules.
    pub roster: Roster,
    /// The journal.
    pub journal: Journal,
    /// The epoch in force.
    pub epoch: u32,
    /// The policy in force.
    pub policy: u32,
}

impl Force {
    /// What is in force of a plan with these start modules before the first line of the journal.
    pub fn open(plan: &Plan, roster: Roster, journal: Journal) -> Force
        ensures { result ≡ force_at plan.now roster journal }
    {
        Force {
            roster,
            journal,
            epoch: plan.first,
            policy: 0,
        }
    }

    /// The module of the plan of this number, as it is to join the loaded modules: with the next policy.
    pub fn entrant<'a>(&self, plan: &'a Plan, number: u32) -> Entrant<'a>
        requires known { number < length plan.now.modules }
        requires few { self.now.policy < MAX_POLICY }
        ensures number { result.number ≡ number }
        ensures name { result.name.now ≡ planned_name plan.now.modules number }
        ensures policy { result.policy ≡ self.now.policy + 1 }
    {
        Entrant::of(plan, number, self.policy + 1)
    }

    /// How many of the loaded modules were there from the start.
    pub fn starts(&self) -> usize
        ensures { result ≡ count_by_policy 0 self.now.roster }
    {
        self.roster.count_by_policy(0)
    }

    /// The place in load order of the first module whose data a guest with this log lacks.
    pub fn due_from(&self, log: &[Log]) -> usize
        ensures { result ≡ count_by_policy (given_by log.now) self.now.roster }
    {
        self.roster.count_by_policy(given_by(log))
    }

    /// Adds a line to the journal, for which there is room. It takes no memory.
    pub fn tell(&mut self, who: Who, what: JournalLine)
        requires room { HasRoomFor who self.old.journal }
        ensures line { HasLine (asked_by who what) self.old.journal self.new.journal }
        ensures same { self.new ≡ record self.old { journal = self.new.journal } }
    {
        self.journal.tell(who, what);
    }

    // Puts the next epoch and the next policy in force, and tells them.
    fn advance(&mut self) -> (u32, u32)
        requires left { self.old.epoch < MAX_EPOCH }
        requires few { self.old.policy < MAX_POLICY }
        ensures told { result ≡ (self.old.epoch + 1, self.old.policy + 1) }
        ensures same { self.new ≡ with_change self.old.roster self.old.journal self.old }
    {
        self.epoch += 1;
        self.policy += 1;
        (self.epoch, self.policy)
    }

    /// Puts a load in force, whose module the roster has by now: the next epoch, the next policy, and its line, for
    /// which there is room. It takes no memory.
    pub fn put_load(&mut self, who: Who, number: u32)
        requires room { HasRoomFor who self.old.journal }
        requires left { self.old.epoch < MAX_EPOCH }
        requires few { self.old.policy < MAX_POLICY }
        ensures line { HasLine (asked_by who (LoadOk number (self.old.epoch + 1) (self.old.policy + 1)))
            self.old.journal self.new.journal }
        ensures same { self.new ≡ with_change self.old.roster self.new.journal self.old }
    {
        let (epoch, policy) = self.advance();
        self.tell(
            who,
            JournalLine::LoadOk {
                module: number,
                epoch,
                policy,
            },
        );
    }

    /// Puts a retirement in force, which the roster has by now: the next epoch, the next policy, and its line, for
    /// which there is room. It takes no memory.
    pub fn put_retirement(&mut self, who: Who, number: u32)
        requires room { HasRoomFor who self.old.journal }
        requires left { self.old.epoch < MAX_EPOCH }
        requires few { self.old.policy < MAX_POLICY }
        ensures line { HasLine (asked_by who (RetireOk number (self.old.epoch + 1) (self.old.policy + 1)))
            self.old.journal self.new.journal }
        ensures same { self.new ≡ with_change self.old.roster self.new.journal self.old }
    {
        let (epoch, policy) = self.advance();
        self.tell(
            who,
            JournalLine::RetireOk {
                module: number,
                epoch,
                policy,
            },
        );
    }

    /// Puts a refresh in force: the next epoch, and its line, for which there is room. It takes no memory.
    pub fn put_refresh(&mut self, who: Who)
        requires room { HasRoomFor who self.old.journal }
        requires left { self.old.epoch < MAX_EPOCH }
        ensures line { HasLine (asked_by who (RefreshOk (self.old.epoch + 1)))
            self.old.journal self.new.journal }
        ensures same { self.new ≡ with_refresh self.new.journal self.old }
    {
        self.epoch += 1;
        let epoch = self.epoch;
        self.tell(who, JournalLine::RefreshOk { epoch });
    }
}
