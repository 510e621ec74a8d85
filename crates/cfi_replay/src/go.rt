//! One unit of a replay.

ghost use Rattle.std.specs.Prelude.{◌≡◌, ◌≢◌, ◌+◌, ◌<◌, ◌≤◌, ◌^◌, IsTrue, None, false, slice_get, true};
ghost use Rattle.cfi_model.specs.Log.{last_policy};
ghost use Rattle.cfi_model.specs.Plain.{answered};
ghost use Rattle.cfi_model.specs.Service.{reply_of};
ghost use Rattle.cfi_model.specs.Shows.{Stands};
ghost use Rattle.cfi_model.specs.State.{State};
ghost use Rattle.cfi_replay.specs.Setting.{CanReplay, IsSetting, members_in};
ghost use Rattle.cfi_replay.specs.inner.Follows.{next_policy, Asks, Follows, HasAnsweredBy, HasGone, HasTurned, IsNoAnswer};
ghost use Rattle.cfi_unit.specs.declared.unit.Unit.{Unit as CodeUnit};
ghost use Rattle.cfi_valid.specs.Loaded.{fills_between, Filled};
ghost use Rattle.cfi_valid.specs.Replay.{IsReplayed};

use crate::cursor::Cursor;
use crate::setting::Setting;
use cfi_model::{Answer, Plain};
use cfi_unit::Log;

// The policy of the next check: that of the next pick, or else the last one that was logged.
fn next_policy(log: &[Log], cursor: &Cursor) -> u32
    ensures { result ≡ next_policy cursor.now.policy (slice_get log.now cursor.now.at) }
{
    match log.get(cursor.at) {
        Some(Log::Pick { policy, .. }) => *policy,
        Some(Log::Open { .. }) => cursor.policy,
        Some(Log::Cause { .. }) => cursor.policy,
        None => cursor.policy,
    }
}

// The machine has stopped.
fn has_stopped(machine: &Plain) -> bool
    ensures going { result ≡ false → machine.now.state.stop ≡ None }
    ensures stopped { IsTrue result → machine.now.state.stop ≢ None }
{
    machine.stop().is_some()
}

// The next entry of the log.
fn next_entry(log: &[Log], cursor: &Cursor) -> Option<Log>
    ensures { result ≡ slice_get log.now cursor.now.at }
{
    log.get(cursor.at).copied()
}

impl Setting<'_> {
    // Answers the open for which the machine waits with a success: it brings the data up to the policy that the guest
    // lacks, and then the cells.
    fn open(&self, machine: &mut Plain, address: u32, given: u32, policy: u32)
        requires setting { IsSetting self.now }
        requires order { given ≤ policy }
        requires most { policy ≤ self.now.force }
        requires waiting { machine.old.waits ≡ true }
        requires rises { last_policy machine.old.state.log ≤ policy }
        ensures { machine.new ≡ answered (reply_of address 0 policy
            (fills_between Filled given policy (members_in self.now))) machine.old }
    {
        let fills = self.data_between(given, policy);
        machine.answer(&Answer {
            address,
            cause: 0,
            policy,
            fills,
        });
        machine.fill(self.cells_at(policy));
    }

    // Answers the open for which the machine waits with the next entry of the log. False where that is none of an open.
    fn answer(&self, log: &[Log], machine: &mut Plain, cursor: &mut Cursor) -> bool
        requires setting { IsSetting self.now }
        requires can { CanReplay self.now log.now }
        requires asks { Asks self.now log.now cursor.old machine.old }
        ensures yes { IsTrue result → HasAnsweredBy self.now log.now
            (record { cursor = cursor.old; machine = machine.old })
            (record { cursor = cursor.new; machine = machine.new }) }
        ensures no { result ≡ false → IsNoAnswer (slice_get log.now cursor.old.at) }
    {
        match next_entry(log, cursor) {
            Some(
                Log::Open {
                    address,
                    policy,
                    ..
                },
            ) => {
                self.open(machine, address, cursor.given, policy);
                cursor.answered(log, machine.log(), policy, policy);
            }
            Some(Log::Cause { cause, .. }) => {
                let policy = cursor.policy;
                machine.answer(&Answer {
                    address: 0,
                    cause,
                    policy,
                    fills: &[],
                });
                cursor.answered(log, machine.log(), policy, cursor.given);
            }
            Some(Log::Pick { .. }) => return false,
            None => return false,
        }
        true
    }

    // Runs the unit at which the machine stands, under the policy of the next check. False where none begins there.
    fn turn(&self, log: &[Log], machine: &mut Plain, cursor: &Cursor) -> bool
        requires setting { IsSetting self.now }
        requires follows { Follows self.now log.now cursor.now machine.old }
        requires going { machine.old.state.stop ≡ None }
        requires few { machine.old.state.units + 1 < 2 ^ 32 }
        ensures yes { IsTrue result →
            HasTurned self.now log.now cursor.now machine.old machine.new }
        ensures no { result ≡ false → (unit : CodeUnit) →
            ¬ Stands self.now.code.now machine.old.state.pc unit }
    {
        let policy = next_policy(log, cursor);
        let labels = &self.labels[policy as usize];
        machine.turn(self.code, policy, labels).is_some()
    }

    /// Runs one unit of a replay over this log. False where there is none.
    pub(crate) fn go(&self, log: &[Log], machine: &mut Plain, cursor: &mut Cursor) -> bool
        requires setting { IsSetting self.now }
        requires can { CanReplay self.now log.now }
        requires follows { Follows self.now log.now cursor.old machine.old }
        requires few { machine.old.state.units + 1 < 2 ^ 32 }
        ensures went { IsTrue result →
            HasGone self.now log.now machine.old cursor.new machine.new }
        ensures stuck { result ≡ false → (new : State) →
            ¬ IsReplayed Filled self.now.code.now (members_in self.now) log.now
            machine.old.state new }
    {
        if has_stopped(machine) {
            return false;
        }
        if !self.turn(log, machine, cursor) {
            return false;
        }
        if machine.waits() {
            return self.answer(log, machine, cursor);
        }
        cursor.keep_up(log, machine.log())
    }
}
