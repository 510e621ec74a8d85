//! The slots that a module's checks name.

ghost use Rattle.std.specs.Prelude.{◌≡◌, ◌+◌, ◌<◌, ◌≤◌, ◌^◌, length};
ghost use Rattle.cfi_unit.specs.Unit.{size_of};
ghost use Rattle.cfi_place.specs.Slots.{check_at, with_slot, with_slots, HasSlots};

use cfi_unit::{Unit, next_unit};
use cfi_word::map::BARY;
use rv_insn::fields::{high_of, low_of};
use rv_insn::{Insn, LoadKind, encode};

// Lets the check at a place name a slot: `lui x28,%hi(address)` and `lw x29,%lo(address)(x28)`.
fn set_slot(words: &mut [u32], at: usize, slot: u32)
    requires within { at + 5 ≤ length words.old }
    requires small { slot < 2 ^ 20 }
    ensures { words.new ≡ with_slot at slot words.old }
{
    let address = BARY + 4 * slot;
    words[at + 3] = encode(&Insn::Lui {
        rd: 28,
        imm: high_of(address),
    });
    words[at + 4] = encode(&Insn::Load {
        kind: LoadKind::Lw,
        rd: 29,
        rs1: 28,
        imm: low_of(address),
    });
}

// Lets a unit at a place name the slot, where it is a check; answers the slot of the next one.
fn set_unit(words: &mut [u32], unit: Unit, at: u32, slot: u32) -> u32
    requires within { at + size_of unit ≤ length words.old }
    requires small { slot + 1 < 2 ^ 20 }
    ensures words { words.new ≡ with_slots slot (check_at at unit) words.old }
    ensures slot { result ≡ slot + length (check_at at unit) }
{
    match unit {
        Unit::Check { .. } => {
            set_slot(words, at as usize, slot);
            slot + 1
        }
        _ => slot,
    }
}

/// Lets the checks of a module name consecutive slots, from `slot` on.
///
/// `source` are the module's words as they were, which say where its checks are, and `words` those that are changed.
pub fn set_slots(words: &mut [u32], source: &[u32], mut slot: u32)
    requires same { length source.now ≡ length words.old }
    requires small { slot + length source.now < 2 ^ 20 }
    ensures { HasSlots source.now slot words.old words.new }
{
    let mut at = 0;
    'units: while let Some((unit, size)) = next_unit(source, at) {
        slot = set_unit(words, unit, at, slot);
        at += size;
    }
}
