//! Branches that may go nowhere.

ghost use Rattle.std.specs.Prelude.{◌≡◌, ℕ, ◌+◌, ◌<◌, length, IfOk, OnOk};
ghost use Rattle.cfi_word.specs.declared.sizes.TheConstants.{SLOTS};
ghost use Rattle.cfi_graph.specs.Reading.{HaveGraph};
ghost use Rattle.cfi_policy.specs.inner.Idle.{AddsIdle, AreIdle};

use cfi_aux::Placed;
use cfi_word::FIELD_MAX;
use std::alloc::{AllocError, Global};

// Adds the slots of a module's branches that have no class.
fn add_idle(idle: &mut Vec<u32>, placed: &Placed, bary: &[u32]) -> Result<(), AllocError>
    requires len { length bary.now ≡ SLOTS }
    requires low { (number : ℕ) → number < length placed.now.branches →
        placed.now.slot_base + number < SLOTS }
    ensures { OnOk result (AddsIdle placed.now.slot_base (length placed.now.branches) bary.now
        idle.old.items idle.new.items) }
{
    for number in 0..placed.branches.as_slice().len() {
        let slot = placed.slot_base as usize + number;
        if bary[slot] == FIELD_MAX {
            idle.push(slot as u32)?;
        }
    }
    Ok(())
}

// The slots of the modules' branches that have no class, in order.
pub(crate) fn idle_branches(
    alloc: Global,
    modules: &[Placed],
    bary: &[u32],
) -> Result<Vec<u32>, AllocError>
    requires graph { HaveGraph modules.now }
    requires len { length bary.now ≡ SLOTS }
    ensures { IfOk result (λ idle. AreIdle modules.now bary.now idle.items) }
{
    let mut idle = Vec::new(alloc);
    for placed in modules {
        add_idle(&mut idle, placed, bary)?;
    }
    Ok(idle)
}
