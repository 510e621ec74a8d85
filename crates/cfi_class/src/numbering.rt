//! The numbers of slots and code words, from the trees that they are in.

ghost use Rattle.std.specs.Prelude.{◌≡◌, ℕ, ◌+◌, ◌<◌, ◌≤◌, ◌^◌, length, slice_index, nat_lt, if◌then◌else◌, IfOk};
ghost use Rattle.cfi_word.specs.declared.ids.TheConstants.{FIELD_MAX};
ghost use Rattle.cfi_class.specs.inner.Forest.{HasSameRoots, root_of};
ghost use Rattle.cfi_class.specs.inner.Numbering.{IsMarked, AreSlotNumbers, AreWordNumbers};

use crate::forest::Forest;
use cfi_word::FIELD_MAX;
use std::alloc::{AllocError, Global};

// The number of this root, or the next one where it has none yet.
fn number_of(numbers: &[u32], root: usize, next: u32) -> u32
    ensures { result ≡
        (if nat_lt root (length numbers.now) then slice_index numbers.now root else next) }
{
    numbers.get(root).copied().unwrap_or(next)
}

// By slot, its class, from 1 in the order of the least slots, and `FIELD_MAX` where it has no edge.
pub(crate) fn number_slots(
    alloc: Global,
    forest: &mut Forest,
    used: &[bool],
) -> Result<Vec<u32>, AllocError>
    requires nodes { length used.now ≤ length forest.old }
    requires few { length used.now < FIELD_MAX }
    requires roots { (slot : ℕ) → IsMarked used.now slot
        → IsMarked used.now (root_of forest.old slot) }
    ensures len { length forest.new ≡ length forest.old }
    ensures same { HasSameRoots forest.old forest.new }
    ensures ok { IfOk result (λ numbers. AreSlotNumbers forest.old used.now numbers.items) }
{
    let mut numbers = Vec::with_capacity(alloc, used.len())?;
    let mut count = 0;
    for (slot, is_used) in used.iter().enumerate() {
        if !is_used {
            numbers.push(FIELD_MAX)?;
            continue;
        }
        let root = forest.root(slot as u32);
        let number = number_of(numbers.as_slice(), root as usize, count + 1);
        numbers.push(number)?;
        count = count.max(number);
    }
    Ok(numbers)
}

// By code word, the number of the slot that is its root, and 0 where it is its own.
pub(crate) fn number_words(
    alloc: Global,
    forest: &mut Forest,
    slots: &[u32],
    code_words: u32,
) -> Result<Vec<u32>, AllocError>
    requires nodes { length slots.now + code_words ≤ length forest.old }
    requires fits { length slots.now + code_words < 2 ^ 32 }
    ensures { IfOk result (λ numbers.
        AreWordNumbers forest.old slots.now code_words numbers.items) }
{
    let mut numbers = Vec::with_capacity(alloc, code_words as usize)?;
    for word in 0..code_words {
        let root = forest.root(slots.len() as u32 + word);
        let number = number_of(slots, root as usize, 0);
        numbers.push(number)?;
    }
    Ok(numbers)
}
