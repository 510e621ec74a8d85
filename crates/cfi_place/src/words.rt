//! The words of a placed module.

ghost use Rattle.std.specs.Prelude.{◌≡◌, ◌+◌, ◌<◌, ◌^◌, length, IfOk};
ghost use Rattle.cfi_place.specs.Slots.{HasSlots};
ghost use Rattle.cfi_place.specs.Placed.{bytes_as_words};

use crate::slots::set_slots;
use rv_reloc::word_at;
use std::alloc::{AllocError, Global};

/// The words of bytes, the low byte first; bytes left over make none.
pub fn words_of(alloc: Global, bytes: &[u8]) -> Result<Vec<u32>, AllocError>
    ensures { IfOk result (λ words. words.items ≡ bytes_as_words bytes.now) }
{
    let count = bytes.len() / 4;
    let mut words = Vec::with_capacity(alloc, count)?;
    for k in 0..count {
        words.push(word_at(bytes, 4 * k))?;
    }
    Ok(words)
}

/// The words of a module's text, of which `source` are the bytes before its relocations and `text` those after them;
/// its checks name the slots from `slot` on.
pub fn placed_words(
    alloc: Global,
    source: &[u8],
    text: &[u8],
    slot: u32,
) -> Result<Vec<u32>, AllocError>
    requires same { length text.now ≡ length source.now }
    requires small { slot + length source.now < 2 ^ 20 }
    ensures { IfOk result (λ words.
        HasSlots (bytes_as_words source.now) slot (bytes_as_words text.now) words.items) }
{
    let source = words_of(alloc, source)?;
    let mut words = words_of(alloc, text)?;
    set_slots(words.as_mut_slice(), &source, slot);
    Ok(words)
}
