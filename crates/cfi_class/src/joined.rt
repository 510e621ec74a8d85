ghost use Rattle.std.specs.Prelude.{◌↔◌, ◌+◌, ◌<◌, ◌^◌, All, IfOk, IsTrue};
ghost use Rattle.cfi_word.specs.Chain.{Chain};
ghost use Rattle.cfi_class.specs.Labels.{HasEdge, IsEdgeWithin};

use crate::sweep::forest_of;
use cfi_word::Edge;
use std::alloc::{AllocError, Global};

/// Whether a chain of the edges joins the slot and the address.
///
/// Each edge's branch is below `slots`, and each target is the address of one of the code words, in bytes. `branch` and
/// `target` may be any numbers: nothing joins a slot past the others, or a number that is the address of no code word.
/// MCFI (Niu and Tan, PLDI 2014): the branch may go to the targets of its class.
pub fn are_joined(
    alloc: Global,
    edges: &[Edge],
    slots: u32,
    code_words: u32,
    branch: u32,
    target: u32,
) -> Result<bool, AllocError>
    requires fits { slots + code_words < 2 ^ 32 }
    requires within { All (IsEdgeWithin slots code_words) edges.now }
    ensures { IfOk result (λ joined.
        IsTrue joined ↔ Chain (HasEdge edges.now) branch target) }
{
    if branch >= slots || target % 4 != 0 || target / 4 >= code_words {
        return Ok(false);
    }
    let mut forest = forest_of(alloc, edges, slots, code_words)?;
    let slot_root = forest.root(branch);
    let word_root = forest.root(slots + target / 4);
    Ok(slot_root == word_root)
}
