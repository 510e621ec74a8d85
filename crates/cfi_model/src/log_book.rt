ghost use Rattle.std.specs.Prelude.{◌≡◌, ℕ, ◌+◌, ◌<◌, ◌≤◌, ◌^◌, ◌++◌, ◌∷◌, [], List, length, IfOk, IfSome, IfNone, false};
ghost use Rattle.cfi_model.specs.Log.{opens, last_policy, last_picks, last_of, is_pick_of, picked};
ghost use Rattle.cfi_word.specs.declared.limits.TheConstants.{MAX_OPENS, MAX_POLICY};

use cfi_unit::Log;
use cfi_word::limits::MAX_LOG;
use std::alloc::{AllocError, Global};
use std::marker::Model;

/// A guest's log, for whose `MAX_LOG` entries room was reserved.
///
/// Policies never fall and at most `MAX_OPENS` opens are logged, so the room is enough.
#[derive(Debug, Drop)]
pub struct LogBook {
    entries: Vec<Log>,
    logged: u32,
}

impl Model for LogBook {
    ghost use Rattle.std.specs.Prelude.{◌≡◌, ◌≤◌, List, vec_capacity};
    ghost use Rattle.cfi_unit.specs.declared.log.Log.{Log};
    ghost use Rattle.cfi_model.specs.Log.{opens, HasRoom};
    ghost use Rattle.cfi_word.specs.declared.limits.TheConstants.{MAX_LOG};

    ghost Value = { List Log };

    ghost view = { λ book. book.entries.items };

    ghost invariant = { λ book. (book.logged ≡ opens book.entries.items)
        × HasRoom book.entries.items × (MAX_LOG ≤ vec_capacity book.entries) };
}

// How many picks under the policy the last entry counts, where it counts such picks.
fn counted(log: &[Log], policy: u32) -> Option<u32>
    ensures some { IfSome result (λ count. last_of log.now ≡ Some (Log.Pick policy count)) }
    ensures none { IfNone result (is_pick_of policy (last_of log.now) ≡ false) }
{
    if log.is_empty() {
        return None;
    }
    let entry = log[log.len() - 1];
    match entry {
        Log::Pick {
            policy: last,
            count,
        } if last == policy => Some(count),
        _ => None,
    }
}

impl LogBook {
    /// An empty log, with room for all entries.
    pub fn new(alloc: Global) -> Result<LogBook, AllocError>
        ensures { IfOk result (λ log. log ≡ []) }
    {
        let entries = Vec::with_capacity(alloc, MAX_LOG)?;
        Ok(LogBook { entries, logged: 0 })
    }

    /// The entries in order.
    pub fn as_slice(&self) -> &[Log]
        ensures entries { result.now ≡ self.now }
        ensures most { last_policy self.now ≤ MAX_POLICY }
    {
        self.entries.as_slice()
    }

    /// How many opens are logged.
    pub fn opens(&self) -> u32
        ensures count { result ≡ opens self.now }
        ensures most { result ≤ MAX_OPENS }
    {
        self.logged
    }

    /// Logs a pick under a policy, which is not below the last one that is logged.
    pub fn pick(&mut self, policy: u32)
        requires rises { last_policy self.old ≤ policy }
        requires most { policy ≤ MAX_POLICY }
        requires few { last_picks self.old + 1 < 2 ^ 32 }
        ensures log { self.new ≡ picked policy self.old }
        ensures last { last_picks self.new ≤ last_picks self.old + 1 }
    {
        match counted(self.entries.as_slice(), policy) {
            Some(count) => {
                let last = self.entries.len() - 1;
                self.entries[last] = Log::Pick {
                    policy,
                    count: count + 1,
                };
            }
            None => self.entries.push_reserved(Log::Pick { policy, count: 1 }),
        }
    }

    /// Logs that the module of this number is open under a policy, which is not below the last one that is logged.
    pub fn open(&mut self, number: u32, address: u32, policy: u32)
        requires rises { last_policy self.old ≤ policy }
        requires most { policy ≤ MAX_POLICY }
        requires few { opens self.old < MAX_OPENS }
        ensures log { self.new ≡ self.old ++ Log.Open number address policy ∷ [] }
        ensures last { last_picks self.new ≡ 0 }
    {
        self.entries.push_reserved(Log::Open {
            module: number,
            address,
            policy,
        });
        self.logged += 1;
    }

    /// Logs that the module of this number was not opened, for this cause.
    pub fn cause(&mut self, number: u32, cause: u32)
        requires { opens self.old < MAX_OPENS }
        ensures log { self.new ≡ self.old ++ Log.Cause number cause ∷ [] }
        ensures last { last_picks self.new ≡ 0 }
    {
        self.entries.push_reserved(Log::Cause {
            module: number,
            cause,
        });
        self.logged += 1;
    }
}
