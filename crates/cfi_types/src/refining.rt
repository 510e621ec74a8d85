//! Refines classes of nodes until they stand still.

ghost use Rattle.std.specs.Prelude.{◌<◌, ◌^◌, length, IfOk};
ghost use Rattle.cfi_types.specs.inner.Splitting.{IsClosed};
ghost use Rattle.cfi_types.specs.inner.Refining.{AreLeaders};
ghost use Rattle.cfi_types.specs.inner.Keeping.{KeepEqual};

use crate::dividing::divided;
use crate::linked::Linked;
use crate::sifting::sifted;
use crate::splitting::split;
use crate::still::are_still;
use std::alloc::{AllocError, Global};

// The least node that is equal to each, where these classes keep equal nodes together.
//
// Where they tell all apart that are not equal, one look shows it, and no step is made.
fn refined(alloc: Global, nodes: &[Linked], kept: Vec<u32>) -> Result<Vec<u32>, AllocError>
    requires fits { length nodes.now < 2 ^ 32 }
    requires closed { IsClosed nodes.now }
    requires keep { KeepEqual nodes.now kept.items }
    ensures { IfOk result (λ leaders. AreLeaders nodes.now leaders.items) }
{
    let mut classes = kept;
    while !are_still(nodes, classes.as_slice()) {
        classes = split(alloc, nodes, classes.as_slice())?;
    }
    Ok(classes)
}

// The least node that is equal to each.
//
// Sifting is cheap, and mostly tells all apart that are not equal. Where it does not, the division does, but for nodes
// that differ beyond the places at which it looks.
pub(crate) fn leaders(alloc: Global, nodes: &[Linked]) -> Result<Vec<u32>, AllocError>
    requires fits { length nodes.now < 2 ^ 32 }
    requires closed { IsClosed nodes.now }
    ensures { IfOk result (λ leaders. AreLeaders nodes.now leaders.items) }
{
    let sifted = sifted(alloc, nodes)?;
    if are_still(nodes, sifted.as_slice()) {
        return Ok(sifted);
    }
    let divided = divided(alloc, nodes, sifted)?;
    refined(alloc, nodes, divided)
}
