//! The numbers of slots and code words, from the trees that they are in, where old classes keep their numbers.

ghost use Rattle.std.specs.Prelude.{◌≡◌, ℕ, ◌+◌, ◌<◌, ◌≤◌, ◌^◌, false, length, slice_index, IfOk, IsTrue};
ghost use Rattle.cfi_class.specs.declared.nodes.TheConstants.{CLASSES};
ghost use Rattle.cfi_class.specs.inner.Forest.{HasSameRoots};
ghost use Rattle.cfi_class.specs.inner.Nodes.{slot_node as node_of_slot, word_node as node_of_word};
ghost use Rattle.cfi_class.specs.inner.Renumbering.{number_at, IsLive, IsIdle, AreRenumbered, AreWordsRenumbered};
ghost use Rattle.cfi_class.specs.inner.Taken.{marked_below};

use crate::forest::Forest;
use crate::nodes::{CLASSES, slot_node, word_node};
use crate::taken::next_free;
use cfi_word::FIELD_MAX;
use std::alloc::{AllocError, Global};

// The number that a root stands for.
fn number_of_root(numbers: &[u32], root: u32) -> u32
    ensures { result ≡ number_at numbers.now root }
{
    if root < CLASSES {
        return root;
    }
    numbers.get((root - CLASSES) as usize).copied().unwrap_or(0)
}

// Whether the slot has neither a class number nor a mark.
fn is_idle(bary: &[u32], used: &[bool], slot: usize) -> bool
    requires { slot < length bary.now }
    ensures idle { IsTrue result → IsIdle bary.now used.now slot }
    ensures live { result ≡ false → IsLive bary.now used.now slot }
{
    bary[slot] >= FIELD_MAX && !used.get(slot).copied().unwrap_or(false)
}

// By slot, the number of its class: the root where that is a number, and for a new class the next one that is free.
pub(crate) fn number_kept_slots(
    alloc: Global,
    forest: &mut Forest,
    bary: &[u32],
    used: &[bool],
    taken: &[bool],
) -> Result<Vec<u32>, AllocError>
    requires nodes { CLASSES + length bary.now ≤ length forest.old }
    requires fits { CLASSES + length bary.now + length bary.now + 2 < 2 ^ 32 }
    requires taken { length taken.now < 2 ^ 32 }
    requires few { (bound : ℕ) → marked_below taken.now bound ≤ length bary.now }
    ensures forest { length forest.new ≡ length forest.old }
    ensures same { HasSameRoots forest.old forest.new }
    ensures len { IfOk result (λ numbers. length numbers.items ≡ length bary.now) }
    ensures ok { IfOk result (λ numbers.
        AreRenumbered forest.old bary.now used.now taken.now numbers.items) }
{
    let mut numbers = Vec::with_capacity(alloc, bary.len())?;
    let mut next = next_free(taken, 1);
    for slot in 0..bary.len() {
        if is_idle(bary, used, slot) {
            numbers.push(FIELD_MAX)?;
            continue;
        }
        let root = forest.root(slot_node(bary, slot as u32));
        if root < CLASSES + slot as u32 {
            let number = number_of_root(numbers.as_slice(), root);
            numbers.push(number)?;
            continue;
        }
        numbers.push(next)?;
        next = next_free(taken, next + 1);
    }
    Ok(numbers)
}

// By code word, the number of its class: the root where that is a number, else that of the slot that is the root.
pub(crate) fn number_kept_words(
    alloc: Global,
    forest: &mut Forest,
    tary: &[u32],
    numbers: &[u32],
) -> Result<Vec<u32>, AllocError>
    requires nodes { CLASSES + length numbers.now + length tary.now ≤ length forest.old }
    requires fits { CLASSES + length numbers.now + length tary.now < 2 ^ 32 }
    requires within { (word : ℕ) → slice_index tary.now word < CLASSES }
    ensures { IfOk result (λ words.
        AreWordsRenumbered forest.old tary.now numbers.now words.items) }
{
    let mut words = Vec::with_capacity(alloc, tary.len())?;
    for word in 0..tary.len() as u32 {
        let root = forest.root(word_node(tary, numbers.len() as u32, word));
        let number = number_of_root(numbers, root);
        words.push(number)?;
    }
    Ok(words)
}
