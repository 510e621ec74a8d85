//! One step of a refinement: classes of nodes are split by what the nodes name.

ghost use Rattle.std.specs.Prelude.{◌≡◌, ◌<◌, ◌^◌, length, IfOk};
ghost use Rattle.cfi_types.specs.inner.Splitting.{IsSplit, IsClosed};

use crate::leader::{Firsts, key};
use crate::linked::Linked;
use std::alloc::{AllocError, Global};

// The least node of the part of each node: those of its class that have its signature.
pub(crate) fn split(
    alloc: Global,
    nodes: &[Linked],
    classes: &[u32],
) -> Result<Vec<u32>, AllocError>
    requires fits { length nodes.now < 2 ^ 32 }
    requires closed { IsClosed nodes.now }
    requires classes { length classes.now ≡ length nodes.now }
    ensures { IfOk result (λ next. IsSplit nodes.now classes.now next.items) }
{
    let mut firsts = Firsts::new(alloc, 0)?;
    let mut next = Vec::with_capacity(alloc, nodes.len())?;
    for (a, node) in nodes.iter().enumerate() {
        let key = key(alloc, classes[a], node, classes)?;
        next.push(firsts.signed(key, a as u32)?)?;
    }
    Ok(next)
}
