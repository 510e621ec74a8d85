//! The spans of the entries of a log, and the cause that a module has no function.

ghost use Rattle.std.specs.Prelude.{◌≡◌, ◌↔◌, ◌≤◌, ℕ, List, IsTrue, length};
ghost use Rattle.cfi_judge.specs.Reached.{state_of};
ghost use Rattle.cfi_judge.specs.inner.Log.{IsBareIn, LacksBy, first_by};
ghost use Rattle.cfi_judge.specs.inner.Span.{IsAhead, IsSpan};
ghost use Rattle.cfi_ledger.specs.Roster.{members_in_roster};
ghost use Rattle.cfi_modules.specs.Entry.{HasAddresses, HasNoneOf, IsGlobal};
ghost use Rattle.cfi_unit.specs.declared.log.Log.{Log as AnyLog};
ghost use Rattle.cfi_valid.specs.Course.{Course};
ghost use Rattle.cfi_valid.specs.Log.{HasNoFunction, HoldsInSpan};

use crate::reached::Reached;
use cfi_aux::Placed;
use cfi_labels::is_live;
use cfi_ledger::Roster;
use cfi_modules::{first_global, loaded_have_entries};
use cfi_plan::ModuleLine;
use cfi_unit::Log;
use cfi_valid::Retirement;

/// The policies under which an entry of a log can have come.
#[derive(Clone, Copy)]
pub(crate) struct Span {
    /// The last one that is logged before it.
    pub least: u32,
    /// The next one that is logged after it, or else the one in force.
    pub most: u32,
}

/// The next policy that is logged from a place of a log on, or else the one in force.
#[derive(Clone, Copy)]
pub(crate) struct Ahead {
    /// The policy.
    pub policy: u32,
    /// The place of its entry, or else the end of the log.
    pub place: usize,
}

/// The next policy that is logged, from a place on.
pub(crate) fn ahead_of(force: u32, log: &[Log], from: usize) -> Ahead
    requires { from ≤ length log.now }
    ensures next { IsAhead force log.now from result }
    ensures far { from ≤ result.place }
{
    for place in from..log.len() {
        match log[place] {
            Log::Pick { policy, .. } => return Ahead { policy, place },
            Log::Open { policy, .. } => return Ahead { policy, place },
            Log::Cause { .. } => {}
        }
    }
    Ahead {
        policy: force,
        place: log.len(),
    }
}

impl Ahead {
    /// The same from a later place on. No entry is looked at twice.
    pub(crate) fn or_from(self, force: u32, log: &[Log], from: usize) -> Ahead
        requires within { from ≤ length log.now }
        requires next { IsAhead force log.now from self }
        ensures next { IsAhead force log.now from result }
        ensures far { from ≤ result.place }
    {
        if from <= self.place {
            return self;
        }
        ahead_of(force, log, from)
    }
}

// The module has no Global function.
fn has_none(placed: &Placed) -> bool
    requires { HasAddresses placed.now }
    ensures { IsTrue result ↔ HasNoneOf IsGlobal placed.now }
{
    match first_global(placed) {
        Some(_) => false,
        None => true,
    }
}

// The first policy from one on that finds the module of a line loaded.
fn first_by(least: u32, line: &ModuleLine) -> u32
    ensures { result ≡ first_by least line.now }
{
    if least < line.policy {
        line.policy
    } else {
        least
    }
}

// The module at a place in load order is that of this number, it has none, and some policy of the span finds it live.
fn is_bare_at(
    line: &ModuleLine,
    placed: &Placed,
    retired: &[Retirement],
    number: u32,
    span: Span,
) -> bool
    requires { HasAddresses placed.now }
    ensures { IsTrue result ↔ IsBareIn span.least span.most retired.now line.now placed.now number }
{
    let policy = first_by(span.least, line);
    policy <= span.most
        && line.number == number
        && is_live(line, retired, policy)
        && has_none(placed)
}

// Some policy of a span finds such a module live.
fn lacks_by(roster: &Roster, number: u32, span: Span) -> bool
    ensures { IsTrue result
        ↔ LacksBy span.least span.most (members_in_roster roster.now) number }
{
    loaded_have_entries();
    let lines = roster.lines();
    let modules = roster.modules();
    let retired = roster.retired();
    for at in 0..lines.len() {
        if is_bare_at(&lines[at], &modules[at], retired, number, span) {
            return true;
        }
    }
    false
}

/// Whether some policy of the span of an entry finds a module of this number live that has no Global function.
pub(crate) fn lacks_function(end: &Reached, span: Span, number: u32) -> bool
    ensures { (c : Course) (log : List AnyLog) (at : ℕ) → c.end ≡ state_of end.now →
        IsSpan end.now.policy log at span → IsTrue result ↔
        HoldsInSpan c log at (λ loaded live. HasNoFunction live number) }
{
    lacks_by(&end.roster, number, span)
}
