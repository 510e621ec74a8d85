//! Why opens are refused.

ghost use Rattle.std.specs.Prelude.{◌≡◌};
ghost use Rattle.cfi_model.specs.Log.{last_policy, policy_after};
ghost use Rattle.cfi_guest_run.specs.Serving.{cause_by};

use cfi_loader::LoadFault;
use cfi_unit::Log;
use cfi_valid::{EPOCHS_SPENT, MODULES_FULL, NOT_PLACED, NOT_VERIFIED, RETIRED, VERSIONS_SPENT};

/// The cause with which an open is answered whose load was refused; None for want of memory.
pub(crate) fn cause_by(fault: &LoadFault) -> Option<u32>
    ensures { result ≡ cause_by fault.now }
{
    match fault {
        LoadFault::Retired => Some(RETIRED),
        LoadFault::ModulesFull => Some(MODULES_FULL),
        LoadFault::Place(_) => Some(NOT_PLACED),
        LoadFault::Verify(_) => Some(NOT_VERIFIED),
        LoadFault::EpochsSpent => Some(EPOCHS_SPENT),
        LoadFault::VersionsSpent { .. } => Some(VERSIONS_SPENT),
        LoadFault::Memory => None,
    }
}

/// The last policy that is logged, 0 where none is.
pub(crate) fn last_policy(log: &[Log]) -> u32
    ensures { result ≡ last_policy log.now }
{
    let mut last = 0;
    for entry in log {
        last = policy_after(last, entry);
    }
    last
}

// The policy that an entry names, or else the one before.
fn policy_after(before: u32, entry: &Log) -> u32
    ensures { result ≡ policy_after before entry.now }
{
    match entry {
        Log::Pick { policy, .. } | Log::Open { policy, .. } => *policy,
        Log::Cause { .. } => before,
    }
}
