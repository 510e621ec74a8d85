//! What retiring a module meets.

ghost use Rattle.std.specs.Prelude.{◌↔◌, ◌<◌, IsTrue, List, length};
ghost use Rattle.cfi_aux.specs.declared.modules.Module.{Module};
ghost use Rattle.cfi_judge.specs.Reached.{state_of};
ghost use Rattle.cfi_judge.specs.inner.Leaving.{IsLeaving, IsLeavingAt};
ghost use Rattle.cfi_judge.specs.inner.Reached.{IsReached};
ghost use Rattle.cfi_plan.specs.declared.plan.Plan.{Plan};
ghost use Rattle.cfi_valid.specs.Journal.{IsUnused, members_of};
ghost use Rattle.cfi_valid.specs.Retiring.{HasUser};

use crate::reached::Reached;
use cfi_ledger::{Prospect, Roster};

/// What retiring the module of a number meets.
#[derive(Clone, Copy)]
pub(crate) enum Leaving {
    /// It is not live.
    NotLive,
    /// It is live, and the module of this number is the first other one that is live and jumps into it.
    Used(u32),
    /// It is live, no other one that is jumps into it, and it stands at this place in load order.
    Unused(usize),
}

// What retiring the live module at a place meets.
fn leaving_at(roster: &Roster, at: usize) -> Leaving
    requires { at < length roster.now.placed }
    ensures { IsLeavingAt roster.now at result }
{
    match roster.user_of(at) {
        Some(by) => Leaving::Used(roster.lines()[by].number),
        None => Leaving::Unused(at),
    }
}

impl Reached {
    /// What retiring the module of a number meets. Where it is live, each live module's code is read once at most.
    pub(crate) fn leaving(&self, number: u32) -> Leaving
        ensures { (plan : Plan) (modules : List Module) → IsReached plan modules self.now →
            IsLeaving self.now number result }
    {
        match self.roster.prospect(number) {
            Prospect::Again(at) => leaving_at(&self.roster, at),
            Prospect::Retired(_) => Leaving::NotLive,
            Prospect::Full => Leaving::NotLive,
            Prospect::Open => Leaving::NotLive,
        }
    }

    /// Whether a module is live, and that of the number `user` is the first other one that is live and jumps into it.
    pub(crate) fn is_used_by(&self, number: u32, user: u32) -> bool
        ensures { (plan : Plan) (modules : List Module) → IsReached plan modules self.now →
            IsTrue result
            ↔ HasUser self.now.policy (members_of (state_of self.now)) number user }
    {
        match self.leaving(number) {
            Leaving::Used(by) => by == user,
            Leaving::Unused(_) => false,
            Leaving::NotLive => false,
        }
    }

    /// Whether a module is live, and no other one that is jumps into it.
    pub(crate) fn is_unused(&self, number: u32) -> bool
        ensures { (plan : Plan) (modules : List Module) → IsReached plan modules self.now →
            IsTrue result ↔ IsUnused (state_of self.now) number }
    {
        match self.leaving(number) {
            Leaving::Used(_) => false,
            Leaving::Unused(_) => true,
            Leaving::NotLive => false,
        }
    }
}
