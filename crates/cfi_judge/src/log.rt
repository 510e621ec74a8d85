//! The log of a guest, but for the causes of its opens.

ghost use Rattle.std.specs.Prelude.{◌≡◌, ◌↔◌, IsTrue};
ghost use Rattle.cfi_judge.specs.inner.Log.{HasOpens, HasRisen, HasOpen, IsThere};
ghost use Rattle.cfi_ledger.specs.Roster.{members_in_roster};
ghost use Rattle.cfi_model.specs.Log.{policy_after};
ghost use Rattle.cfi_modules.specs.Entry.{HasAddresses, IsFirstOf, IsGlobal};
ghost use Rattle.cfi_valid.specs.Loaded.{live_at};
ghost use Rattle.cfi_valid.specs.Log.{HasFunctionAt};

use cfi_aux::Placed;
use cfi_labels::is_live;
use cfi_ledger::Roster;
use cfi_modules::{first_global, loaded_have_entries};
use cfi_plan::ModuleLine;
use cfi_unit::Log;
use cfi_valid::Retirement;

/// The policy that is logged last, with an entry more.
pub(crate) fn policy_after(before: u32, entry: &Log) -> u32
    ensures { result ≡ policy_after before entry.now }
{
    match entry {
        Log::Pick { policy, .. } => *policy,
        Log::Open { policy, .. } => *policy,
        Log::Cause { .. } => before,
    }
}

/// Whether the policies of a log never fall, and none is above the one in force.
pub(crate) fn log_rises(force: u32, log: &[Log]) -> bool
    ensures { IsTrue result ↔ HasRisen force log.now }
{
    let mut before = 0;
    for entry in log {
        let next = policy_after(before, entry);
        if next < before {
            return false;
        }
        before = next;
    }
    before <= force
}

// The address is that of the module's first Global function.
fn begins_at(placed: &Placed, address: u32) -> bool
    requires { HasAddresses placed.now }
    ensures { IsTrue result ↔ IsFirstOf IsGlobal placed.now address }
{
    first_global(placed) == Some(address)
}

// An open, as an entry of a log tells it.
#[derive(Clone, Copy)]
struct Open {
    // The module's number.
    number: u32,
    // The address that was given.
    address: u32,
    // The policy of the answer.
    policy: u32,
}

// The module at a place in load order is that of an open, it is live under its policy, and the address is that of its
// first Global function.
fn is_open_at(line: &ModuleLine, placed: &Placed, retired: &[Retirement], opened: Open) -> bool
    requires { HasAddresses placed.now }
    ensures { IsTrue result ↔ IsThere (λ p. IsFirstOf IsGlobal p opened.address) retired.now
        line.now placed.now opened.number opened.policy }
{
    line.number == opened.number
        && is_live(line, retired, opened.policy)
        && begins_at(placed, opened.address)
}

// A module of this number is live under the policy, and the address is that of its first Global function.
fn has_function_at(roster: &Roster, opened: Open) -> bool
    ensures { IsTrue result ↔ HasFunctionAt
        (live_at opened.policy (members_in_roster roster.now)) opened.number opened.address }
{
    loaded_have_entries();
    let lines = roster.lines();
    let modules = roster.modules();
    let retired = roster.retired();
    for at in 0..lines.len() {
        if is_open_at(&lines[at], &modules[at], retired, opened) {
            return true;
        }
    }
    false
}

// What an entry says is open is so.
fn is_opened(roster: &Roster, entry: &Log) -> bool
    ensures { IsTrue result ↔ HasOpen (members_in_roster roster.now) entry.now }
{
    match entry {
        Log::Pick { .. } => true,
        Log::Open {
            module,
            address,
            policy,
        } => has_function_at(
            roster,
            Open {
                number: *module,
                address: *address,
                policy: *policy,
            },
        ),
        Log::Cause { .. } => true,
    }
}

/// Whether each module that a log says was opened is live under the policy of its entry, where the log says.
pub(crate) fn log_opens(roster: &Roster, log: &[Log]) -> bool
    ensures { IsTrue result ↔ HasOpens (members_in_roster roster.now) log.now }
{
    for entry in log {
        if !is_opened(roster, entry) {
            return false;
        }
    }
    true
}
