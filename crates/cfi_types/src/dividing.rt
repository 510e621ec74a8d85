//! Parts of nodes that are divided by one another until none divides another.

ghost use Rattle.std.specs.Prelude.{◌≡◌, ◌<◌, ◌^◌, length, All, IfOk};
ghost use Rattle.cfi_types.specs.inner.Splitting.{IsClosed};
ghost use Rattle.cfi_types.specs.inner.Keeping.{AreNamed, KeepEqual};

use crate::hits::{divides_none, gather};
use crate::leader::Firsts;
use crate::linked::Linked;
use crate::lists::Lists;
use crate::parents::parents_of;
use crate::partition::Parts;
use cfi_word::limits::MAX_FIELDS;
use std::alloc::{AllocError, Global};

// The least node of the part of each node.
fn least_of(alloc: Global, parts: &[u32]) -> Result<Vec<u32>, AllocError>
    requires fits { length parts.now < 2 ^ 32 }
    requires below { All (λ k. k < length parts.now) parts.now }
    ensures { IfOk result (λ least. AreNamed parts.now least.items) }
{
    let mut firsts = Firsts::new(alloc, parts.len())?;
    let mut least = Vec::with_capacity(alloc, parts.len())?;
    for (a, part) in parts.iter().enumerate() {
        least.push(firsts.alone(*part, a as u32))?;
    }
    Ok(least)
}

// The parts into which these classes are divided, which keep equal nodes together and tell others apart.
//
// The nodes that name a node of a part at one place are taken out of their parts. Of the two parts of a part that
// has divided others before, the smaller alone does: a node is in few of these, so that each field is met few times.
pub(crate) fn divided(
    alloc: Global,
    nodes: &[Linked],
    classes: Vec<u32>,
) -> Result<Vec<u32>, AllocError>
    requires fits { length nodes.now < 2 ^ 32 }
    requires closed { IsClosed nodes.now }
    requires keep { KeepEqual nodes.now classes.items }
    ensures { IfOk result (λ parts. KeepEqual nodes.now parts.items) }
{
    let parents = parents_of(alloc, nodes)?;
    let mut parts = Parts::new(alloc, classes)?;
    let mut hits = Lists::new(alloc, MAX_FIELDS as usize)?;
    for _ in 0..2 * nodes.len() {
        let Some(part) = parts.next() else {
            break;
        };
        if divides_none(&parts, &parents, part) {
            continue;
        }
        gather(
            &mut hits,
            &parents,
            parts.members.row(part),
            parts.parts.as_slice(),
            part,
        )?;
        parts.divide_by(&mut hits)?;
    }
    least_of(alloc, parts.parts.as_slice())
}
