//! What a simulation tells of the end of its schedule.

ghost use Rattle.std.specs.Prelude.{◌≡◌, ◌≤◌, IfOk, length};
ghost use Rattle.cfi_sim.specs.inner.Parts.{ArePartsOf};
ghost use Rattle.cfi_word.specs.declared.limits.TheConstants.{GUESTS};

use cfi_guest_part::part_of;
use cfi_plan::Plan;
use cfi_report::GuestPart;
use rv_guest::Guest;
use std::alloc::{AllocError, Global};

/// What a report says of the guests of a plan, by number.
pub(crate) fn parts_of(
    alloc: Global,
    plan: &Plan,
    guests: &[Guest],
) -> Result<Vec<GuestPart>, AllocError>
    requires count { length guests.now ≡ length plan.now.guests }
    requires few { length plan.now.guests ≤ GUESTS }
    ensures { IfOk result (λ parts.
        ArePartsOf plan.now guests.now (length plan.now.guests) parts.items) }
{
    let mut parts = Vec::new(alloc);
    for (number, entry) in plan.guests.as_slice().iter().enumerate() {
        parts.push(part_of(alloc, number as u32, entry.as_str(), &guests[number])?)?;
    }
    Ok(parts)
}
