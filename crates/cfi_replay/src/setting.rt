//! Over what the guests of a report are replayed.

use cfi_ledger::Roster;
use cfi_plan::Plan;
use cfi_unit::Fill;
use cfi_values::Items;
use cfi_word::Labels;

/// Over what the guests of a report are replayed.
#[derive(Drop)]
pub struct Setting<'a> {
    /// The plan.
    pub plan: &'a Plan,
    /// The modules that were loaded.
    pub roster: &'a Roster,
    /// The policy in force.
    pub force: u32,
    /// The code of all that was loaded, by word.
    pub code: &'a [u32],
    /// The labels of each policy up to the one in force, by its number.
    pub labels: &'a [Labels],
    /// The cells of late imports at each policy up to the one in force, by its number.
    pub cells: &'a [Items<Fill>],
}
