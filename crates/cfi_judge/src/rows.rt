//! What the modules of the plan meet behind those that each policy finds loaded, beside those that are live under it.

ghost use Rattle.std.specs.Prelude.{◌≡◌, ◌↔◌, ◌≤◌, List, All, IfOk, IsTrue, Some, length, slice_get};
ghost use Rattle.cfi_judge.specs.Reached.{state_of};
ghost use Rattle.cfi_judge.specs.inner.Meets.{HasLive};
ghost use Rattle.cfi_judge.specs.inner.Rows.{AreRows, IsRow, LackLast, Shows};
ghost use Rattle.cfi_ledger.specs.Roster.{loaded_in_roster};
ghost use Rattle.cfi_modules.specs.Series.{CanBeTaken};
ghost use Rattle.cfi_valid.specs.Journal.{live_in};
ghost use Rattle.cfi_valid.specs.Loaded.{LoadedModule};
ghost use Rattle.cfi_word.specs.declared.limits.TheConstants.{MAX_MODULES};

use crate::meeting::{Kind, Meeting, kind_of, met};
use crate::reached::Reached;
use cfi_aux::Module;
use cfi_ledger::Roster;
use cfi_values::Items;
use std::alloc::{AllocError, Global};

/// Whether a row says so of the module of a number.
pub(crate) fn says(row: &Items<Meeting>, number: u32, meeting: Meeting) -> bool
    ensures { IsTrue result ↔ (slice_get row.now number ≡ Some meeting) }
{
    (number as usize) < row.len() && row.as_slice()[number as usize] == meeting
}

/// Whether a row says so of the module of a number, but for the numbers of a fault.
pub(crate) fn shows(row: &Items<Meeting>, number: u32, kind: Kind) -> bool
    ensures { IsTrue result ↔ Shows row.now number kind }
{
    if number as usize >= row.len() {
        return false;
    }
    kind_of(row.as_slice()[number as usize]) == kind
}

// What each module of the plan meets.
fn row_of(
    alloc: Global,
    roster: &mut Roster,
    modules: &[Module],
) -> Result<Items<Meeting>, AllocError>
    requires taken { All CanBeTaken modules.now }
    requires few { length modules.now ≤ MAX_MODULES }
    ensures ok { (live : List LoadedModule) → HasLive roster.old live →
        IfOk result (IsRow roster.old.code_words modules.now (loaded_in_roster roster.old) live) }
    ensures same { roster.new ≡ roster.old }
{
    let mut row = Vec::with_capacity(alloc, modules.len())?;
    for number in 0..modules.len() {
        row.push(met(roster, modules, number as u32)?)?;
    }
    Ok(Items::from_vec(row))
}

impl Reached {
    /// With a row for the policy in force, where it has none yet. Each module that is not loaded is tried once for it.
    pub(crate) fn with_row(
        mut self,
        alloc: Global,
        modules: &[Module],
    ) -> Result<Reached, AllocError>
        requires live { HasLive self.roster (live_in (state_of self)) }
        requires taken { All CanBeTaken modules.now }
        requires few { length modules.now ≤ MAX_MODULES }
        requires near { LackLast self.roster.code_words modules.now (state_of self)
            self.rows.items }
        ensures ok { IfOk result (λ new. AreRows self.roster.code_words modules.now
            (state_of self) new.rows.items) }
        ensures same { IfOk result (λ new. new ≡ record self { rows = new.rows }) }
    {
        if self.rows.len() > self.policy as usize {
            return Ok(self);
        }
        let row = row_of(alloc, &mut self.roster, modules)?;
        self.rows.push(row)?;
        Ok(self)
    }
}
