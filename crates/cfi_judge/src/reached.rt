//! The state to which the first lines of a journal lead.

ghost use Rattle.std.specs.Prelude.{◌≡◌, ◌↔◌, ◌<◌, IsTrue, List, length};
ghost use Rattle.cfi_aux.specs.declared.modules.Module.{Module};
ghost use Rattle.cfi_judge.specs.inner.Reached.{IsReached};
ghost use Rattle.cfi_judge.specs.inner.Rows.{HasMeeting, IsMeeting};
ghost use Rattle.cfi_ledger.specs.Roster.{loaded_in_roster};
ghost use Rattle.cfi_judge.specs.Reached.{state_of};
ghost use Rattle.cfi_plan.specs.declared.plan.Plan.{Plan};
ghost use Rattle.cfi_valid.specs.Journal.{live_in};

use crate::meeting::{Kind, Meeting};
use crate::rows::{says, shows};
use cfi_ledger::Roster;
use cfi_values::Items;

/// The state to which the first lines of a journal lead.
#[derive(Drop)]
pub struct Reached {
    /// The epoch in force.
    pub epoch: u32,
    /// The policy in force.
    pub policy: u32,
    /// The loaded modules.
    pub roster: Roster,
    /// What each module of the plan meets behind those that each policy finds loaded, beside those that are live under
    /// it.
    pub(crate) rows: Vec<Items<Meeting>>,
}

impl Reached {
    /// Whether the module of the plan of a number meets this behind those that are loaded, beside those that are live.
    /// It is not tried again.
    pub(crate) fn meets(&self, number: u32, meeting: Meeting) -> bool
        requires { self.now.policy < length self.now.rows.items }
        ensures { (plan : Plan) (modules : List Module) → IsReached plan modules self.now →
            IsTrue result ↔ IsMeeting plan.code_words modules
            (loaded_in_roster self.now.roster) (live_in (state_of self.now)) number meeting }
    {
        says(&self.rows[self.policy as usize], number, meeting)
    }

    /// Whether it meets this behind those that some policy between these finds loaded.
    pub(crate) fn has_met(&self, least: u32, most: u32, number: u32, kind: Kind) -> bool
        ensures { IsTrue result ↔ HasMeeting least most self.now.rows.items number kind }
    {
        for policy in least as usize..self.rows.len() {
            if policy > most as usize {
                return false;
            }
            if shows(&self.rows[policy], number, kind) {
                return true;
            }
        }
        false
    }
}
