//! Lines of a journal, where they stand.

ghost use Rattle.std.specs.Prelude.{◌≡◌, ◌↔◌, ◌+◌, IfErr, IsTrue, OnOk};
ghost use Rattle.cfi_judge.specs.Reached.{state_of};
ghost use Rattle.cfi_judge.specs.inner.Faults.{Refutes};
ghost use Rattle.cfi_judge.specs.inner.Lines.{IsRefusal};
ghost use Rattle.cfi_judge.specs.inner.Meets.{HasLive};
ghost use Rattle.cfi_judge.specs.inner.Reached.{IsReached};
ghost use Rattle.cfi_valid.specs.Journal.{HasNextEpoch, IsAgain, IsOutOfEpochs, IsTooOld, live_in};

use crate::fault::{LineFault, must};
use crate::meeting::{Meeting, is_full, is_gone, is_live};
use crate::reached::Reached;
use cfi_aux::Module;
use cfi_plan::{JournalLine, Plan};
use cfi_word::limits::MAX_EPOCH;

impl Reached {
    // The module is live already, under the policy in force.
    fn is_again(&self, number: u32, policy: u32) -> bool
        requires { HasLive self.now.roster (live_in (state_of self.now)) }
        ensures { IsTrue result ↔ IsAgain (state_of self.now) number policy }
    {
        policy == self.policy && is_live(&self.roster, number)
    }

    // An update goes to this epoch.
    pub(crate) fn is_next_epoch(&self, epoch: u32) -> bool
        ensures { IsTrue result ↔ HasNextEpoch (state_of self.now) epoch }
    {
        self.epoch < MAX_EPOCH && epoch == self.epoch + 1
    }

    // The policy follows on the one in force.
    pub(crate) fn is_next_policy(&self, policy: u32) -> bool
        ensures { IsTrue result ↔ (policy ≡ self.now.policy + 1) }
    {
        policy > self.policy && policy - self.policy == 1
    }

    /// An update goes to no epoch.
    pub(crate) fn is_last_epoch(&self) -> bool
        ensures { IsTrue result ↔ IsOutOfEpochs (state_of self.now) }
    {
        self.epoch == MAX_EPOCH
    }

    // A guest has published an epoch that is too far below the next.
    fn is_too_old(&self, plan: &Plan, guest: u32, quiet: u32) -> bool
        ensures { IsTrue result ↔ IsTooOld plan.now (state_of self.now) guest quiet }
    {
        self.epoch < MAX_EPOCH
            && (guest as usize) < plan.guests.len()
            && plan.first <= quiet
            && quiet <= self.epoch
            && u64::from(quiet) + u64::from(plan.versions) < u64::from(self.epoch) + 3
    }

    // What a line tells of a refusal, or of a module that is live already, is so. No module is tried again.
    fn is_refusal(&self, plan: &Plan, modules: &[Module], line: JournalLine) -> bool
        requires { IsReached plan.now modules.now self.now }
        ensures { IsTrue result ↔ IsRefusal plan.now modules.now (state_of self.now) line }
    {
        match line {
            JournalLine::LoadOk { .. } => false,
            JournalLine::LoadAgain { module, policy } => self.is_again(module, policy),
            JournalLine::LoadFull { module } => is_full(&self.roster, modules, module),
            JournalLine::LoadPlace { module, number } => {
                self.meets(module, Meeting::Unplaced(number))
            }
            JournalLine::LoadVerify {
                module,
                number,
                place,
            } => self.meets(module, Meeting::Unverified { number, place }),
            JournalLine::LoadVersions {
                module,
                guest,
                quiet,
            } => self.is_too_old(plan, guest, quiet) && self.meets(module, Meeting::Joins),
            JournalLine::LoadEpochs { module } => {
                self.is_last_epoch() && self.meets(module, Meeting::Joins)
            }
            JournalLine::LoadRetired { module } => is_gone(&self.roster, module),
            JournalLine::RefreshOk { .. } => false,
            JournalLine::RefreshVersions { guest, quiet } => self.is_too_old(plan, guest, quiet),
            JournalLine::RefreshEpochs => self.is_last_epoch(),
            JournalLine::RetireOk { .. } => false,
            JournalLine::RetireNotLive { module } => !is_live(&self.roster, module),
            JournalLine::RetireInUse { module, user } => self.is_used_by(module, user),
            JournalLine::RetireVersions {
                module,
                guest,
                quiet,
            } => self.is_too_old(plan, guest, quiet) && self.is_unused(module),
            JournalLine::RetireEpochs { module } => self.is_last_epoch() && self.is_unused(module),
        }
    }

    /// That a line tells of a refusal, or of a module that is live already, and is legal.
    pub(crate) fn must_refuse(
        &self,
        plan: &Plan,
        modules: &[Module],
        line: JournalLine,
    ) -> Result<(), LineFault>
        requires { IsReached plan.now modules.now self.now }
        ensures ok { OnOk result (IsRefusal plan.now modules.now (state_of self.now) line) }
        ensures fault { IfErr result
            (Refutes (IsRefusal plan.now modules.now (state_of self.now) line)) }
    {
        must(self.is_refusal(plan, modules, line))
    }
}
