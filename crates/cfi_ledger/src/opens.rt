//! Answers to opens of modules that are loaded.

ghost use Rattle.std.specs.Prelude.{◌≡◌, drop};
ghost use Rattle.cfi_ledger.specs.Opens.{given_reply};
ghost use Rattle.cfi_model.specs.Service.{reply_of};
ghost use Rattle.cfi_valid.specs.Replay.{given_by};

use cfi_unit::{Answer, Fill, Log};
use cfi_word::services::NO_FUNCTION;

/// The policy up to which a guest has been given data.
pub(crate) fn given_by(log: &[Log]) -> u32
    ensures { result ≡ given_by log.now }
{
    let mut given = 0;
    for entry in log {
        if let Log::Open { policy, .. } = entry {
            given = *policy;
        }
    }
    given
}

// The fills from one on.
fn fills_from(fills: &[Fill], first: usize) -> &[Fill]
    ensures { result.now ≡ drop first fills.now }
{
    &fills[first.min(fills.len())..]
}

/// The answer to an open of a loaded module by the address of its first Global function, with the fills from one on;
/// without a function the cause is `NO_FUNCTION`, and there are none.
pub fn open_answer<'a>(
    address: Option<u32>,
    policy: u32,
    fills: &'a [Fill],
    first: usize,
) -> Answer<'a>
    ensures { reply_of result.address result.cause result.policy result.fills.now
        ≡ given_reply address policy (drop first fills.now) }
{
    match address {
        Some(address) => Answer {
            address,
            cause: 0,
            policy,
            fills: fills_from(fills, first),
        },
        None => Answer {
            address: 0,
            cause: NO_FUNCTION,
            policy,
            fills: &[],
        },
    }
}
