//! A forest of classes that are there and of edges: classes that an edge links become one tree.

ghost use Rattle.std.specs.Prelude.{◌≡◌, ℕ, ◌+◌, ◌<◌, ◌^◌, length, slice_index, All, IfOk};
ghost use Rattle.cfi_class.specs.declared.nodes.TheConstants.{CLASSES};
ghost use Rattle.cfi_class.specs.Labels.{IsEdgeWithin};
ghost use Rattle.cfi_class.specs.inner.Nodes.{slot_node as node_of_slot, word_node as node_of_word};
ghost use Rattle.cfi_class.specs.inner.Nodes.{IsKeptForest, node_count};

use crate::forest::Forest;
use cfi_word::{Edge, FIELD_MAX};
use std::alloc::{AllocError, Global};

/// How many numbers of 14 bits there are: the nodes of a forest that come before the slots.
pub(crate) const CLASSES: u32 = FIELD_MAX + 1;

// The node of a slot: its class number, and one of its own where it has none.
pub(crate) fn slot_node(bary: &[u32], slot: u32) -> u32
    requires within { slot < length bary.now }
    requires fits { CLASSES + length bary.now < 2 ^ 32 }
    ensures { result ≡ node_of_slot bary.now slot }
{
    let number = bary[slot as usize];
    if number < FIELD_MAX {
        number
    } else {
        CLASSES + slot
    }
}

// The node of a code word, behind those of so many slots.
pub(crate) fn word_node(tary: &[u32], slots: u32, word: u32) -> u32
    requires within { word < length tary.now }
    requires fits { CLASSES + slots + length tary.now < 2 ^ 32 }
    ensures { result ≡ node_of_word tary.now slots word }
{
    let number = tary[word as usize];
    if number == 0 {
        CLASSES + slots + word
    } else {
        number
    }
}

// The forest of classes that are there and of edges: one tree for each class, or for all that edges make one.
pub(crate) fn kept_forest(
    alloc: Global,
    tary: &[u32],
    bary: &[u32],
    fresh: &[Edge],
) -> Result<Forest, AllocError>
    requires fits { node_count tary.now bary.now < 2 ^ 32 }
    requires within { All (IsEdgeWithin (length bary.now) (length tary.now)) fresh.now }
    requires words { (word : ℕ) → slice_index tary.now word < CLASSES }
    ensures len { IfOk result (λ forest. length forest ≡ node_count tary.now bary.now) }
    ensures links { IfOk result (IsKeptForest tary.now bary.now fresh.now) }
{
    let slots = bary.len() as u32;
    let mut forest = Forest::new(alloc, CLASSES + slots + tary.len() as u32)?;
    for edge in fresh {
        let slot = slot_node(bary, edge.branch);
        let word = word_node(tary, slots, edge.target / 4);
        forest.join(slot, word);
    }
    Ok(forest)
}
