//! How far a guest has come in the log of its part.

ghost use Rattle.std.specs.Prelude.{◌≡◌, ◌↔◌, ◌<◌, ◌≤◌, IsTrue, drop, false, length};
ghost use Rattle.cfi_model.specs.Log.{last_picks};
ghost use Rattle.cfi_replay.specs.inner.Cursor.{is_void, unvoid, marked, HasAnswered, HasCounted, HasMark, HasNoPick, HasPassed, HasPicked, IsOpened, IsSettled};

use cfi_unit::Log;

/// How far a guest has come in the log of its part, and what its own log tells.
#[derive(Clone, Copy)]
pub(crate) struct Cursor {
    /// The place of the next entry.
    pub(crate) at: usize,
    /// How many of its picks were made.
    pub(crate) used: u32,
    /// The last policy that was logged.
    pub(crate) policy: u32,
    /// The policy up to which the guest has been given data.
    pub(crate) given: u32,
    /// How many entries the guest's own log has.
    pub(crate) entries: usize,
    /// How many picks its last one counts.
    pub(crate) picks: u32,
}

// The entry stands for nothing.
fn is_void(entry: &Log) -> bool
    ensures { result ≡ is_void entry.now }
{
    match entry {
        Log::Pick { count, .. } => *count == 0,
        Log::Open { .. } => false,
        Log::Cause { .. } => false,
    }
}

// The first place from this one on whose entry stands for something.
fn settled(log: &[Log], from: usize) -> usize
    requires { from ≤ length log.now }
    ensures rest { drop result log.now ≡ unvoid (drop from log.now) }
    ensures within { result ≤ length log.now }
{
    for at in from..log.len() {
        if !is_void(&log[at]) {
            return at;
        }
    }
    log.len()
}

// How many picks the last entry counts.
fn last_picks(log: &[Log]) -> u32
    ensures { result ≡ last_picks log.now }
{
    match log.last() {
        Some(Log::Pick { count, .. }) => *count,
        Some(Log::Open { .. }) => 0,
        Some(Log::Cause { .. }) => 0,
        None => 0,
    }
}

impl Cursor {
    /// That of a guest at its start.
    pub(crate) fn open(log: &[Log]) -> Cursor
        ensures { IsOpened log.now result }
    {
        Cursor {
            at: settled(log, 0),
            used: 0,
            policy: 0,
            given: 0,
            entries: 0,
            picks: 0,
        }
    }

    // The next entry of the log is done.
    fn pass(&mut self, log: &[Log])
        requires { self.old.at < length log.now }
        ensures { HasPassed log.now self.old self.new }
    {
        self.at = settled(log, self.at + 1);
        self.used = 0;
    }

    // One more of the picks of the next entry is made.
    fn count(&mut self, log: &[Log], count: u32)
        requires within { self.old.at < length log.now }
        requires few { self.old.used < count }
        ensures { HasCounted log.now count self.old self.new }
    {
        if self.used + 1 == count {
            self.pass(log);
        } else {
            self.used += 1;
        }
    }

    // What the guest has logged is noted.
    fn mark(&mut self, logged: &[Log])
        ensures { self.new ≡ marked logged.now self.old }
    {
        self.entries = logged.len();
        self.picks = last_picks(logged);
    }

    // The guest has logged nothing since.
    fn has_mark(&self, logged: &[Log]) -> bool
        ensures { IsTrue result ↔ HasMark logged.now self.now }
    {
        self.entries == logged.len() && self.picks == last_picks(logged)
    }

    /// Goes on behind a unit that asked for nothing: a pick is the next one of the log. False where it is not.
    pub(crate) fn keep_up(&mut self, log: &[Log], logged: &[Log]) -> bool
        requires { IsSettled self.old.used (drop self.old.at log.now) }
        ensures same { HasMark logged.now self.old → IsTrue result × (self.new ≡ self.old) }
        ensures took { ¬ HasMark logged.now self.old → IsTrue result →
            HasPicked log.now logged.now self.old self.new }
        ensures none { result ≡ false → ¬ HasMark logged.now self.old × HasNoPick log.now self.old }
    {
        if self.has_mark(logged) {
            return true;
        }
        let Some(Log::Pick { policy, count }) = log.get(self.at).copied() else {
            return false;
        };
        self.count(log, count);
        self.policy = policy;
        self.mark(logged);
        true
    }

    /// Goes on behind an open that was answered by the next entry, under this policy, with data up to this one.
    pub(crate) fn answered(&mut self, log: &[Log], logged: &[Log], policy: u32, given: u32)
        requires { self.old.at < length log.now }
        ensures { HasAnswered log.now logged.now
            (record { policy = policy; given = given }) self.old self.new }
    {
        self.pass(log);
        self.policy = policy;
        self.given = given;
        self.mark(logged);
    }
}
