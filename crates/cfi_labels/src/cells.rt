//! The cells of late imports at each policy.

ghost use Rattle.std.specs.Prelude.{◌≡◌, IfOk, length};
ghost use Rattle.cfi_labels.specs.Cells.{AreCellsOf};
ghost use Rattle.cfi_labels.specs.Labels.{ComeInOrder};
ghost use Rattle.cfi_ledger.specs.Roster.{loaded_in_roster, members_in_roster};
ghost use Rattle.cfi_valid.specs.Loaded.{cells_at};

use crate::live::live_modules;
use crate::loaded::loaded_modules;
use cfi_graph::cells;
use cfi_ledger::Roster;
use cfi_modules::series_have_cells;
use cfi_unit::Fill;
use cfi_values::Items;
use std::alloc::{AllocError, Global};

// The cells at a policy: those of the modules that it finds loaded, with what their names mean among the live ones.
fn cells_by(alloc: Global, roster: &Roster, policy: u32) -> Result<Items<Fill>, AllocError>
    requires lined { length roster.now.lines ≡ length roster.now.placed }
    requires order { ComeInOrder (loaded_in_roster roster.now) }
    ensures { IfOk result (λ cells. cells ≡ cells_at policy (members_in_roster roster.now)) }
{
    series_have_cells();
    let live = live_modules(alloc, roster, policy)?;
    let loaded = loaded_modules(roster, policy);
    Ok(Items::from_vec(cells(alloc, &live, loaded)?))
}

/// The cells of late imports at each policy up to the last, in order: by the number of a policy, from 0.
///
/// The roster has a line for each module. A set has at most a cell for each check that there is room for in the code.
pub fn policy_cells(
    alloc: Global,
    roster: &Roster,
    last: u32,
) -> Result<Vec<Items<Fill>>, AllocError>
    requires lined { length roster.now.lines ≡ length roster.now.placed }
    requires order { ComeInOrder (loaded_in_roster roster.now) }
    ensures { IfOk result (λ sets.
        AreCellsOf (members_in_roster roster.now) last sets.items) }
{
    let mut sets = Vec::new(alloc);
    for policy in 0..last as usize + 1 {
        sets.push(cells_by(alloc, roster, policy as u32)?)?;
    }
    Ok(sets)
}
