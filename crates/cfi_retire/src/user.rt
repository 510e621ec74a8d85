//! The first module that jumps into one of a list.

ghost use Rattle.std.specs.Prelude.{◌≡◌, ◌↔◌, ℕ, ◌+◌, ◌<◌, ◌≤◌, ◌^◌, length, All, IfSome, IfNone, IsTrue};
ghost use Rattle.cfi_word.specs.declared.limits.TheConstants.{MAX_CODE_WORDS};
ghost use Rattle.cfi_graph.specs.Shaped.{IsShaped};
ghost use Rattle.cfi_graph.specs.Live.{IsJumpInto, JumpsInto, IsUser, IsFirstUser};

use cfi_aux::Placed;
use cfi_graph::word_to;
use cfi_unit::{Unit, next_unit};

// Whether the code word is one of the module's.
fn has_word(placed: &Placed, word: u32) -> bool
    requires { placed.now.base + length placed.now.words ≤ MAX_CODE_WORDS }
    ensures { IsTrue result ↔
        (placed.now.base ≤ word) × (word < placed.now.base + length placed.now.words) }
{
    placed.base <= word && word < placed.base + placed.words.len() as u32
}

// Whether the unit at a word of the module is a direct jump to a word of the target.
fn is_jump_into(placed: &Placed, at: u32, unit: Unit, target: &Placed) -> bool
    requires within { placed.now.base + at < MAX_CODE_WORDS }
    requires ends { target.now.base + length target.now.words ≤ MAX_CODE_WORDS }
    ensures { IsTrue result ↔ IsJumpInto placed.now at unit target.now }
{
    match unit {
        Unit::Jump { off, .. } => match word_to(placed.base + at, off) {
            Some(word) => has_word(target, word),
            None => false,
        },
        Unit::Plain(_) | Unit::Load { .. } | Unit::Store { .. } => false,
        Unit::Branch { .. } | Unit::Check { .. } | Unit::Service => false,
    }
}

// Whether a direct jump of the module leads to a word of the target.
fn jumps_into(placed: &Placed, target: &Placed) -> bool
    requires shaped { IsShaped placed.now }
    requires ends { target.now.base + length target.now.words ≤ MAX_CODE_WORDS }
    ensures { IsTrue result ↔ JumpsInto placed.now target.now }
{
    let words = placed.words.as_slice();
    let mut at = 0;
    'units: while let Some((unit, size)) = next_unit(words, at) {
        if is_jump_into(placed, at, unit, target) {
            return true;
        }
        at += size;
    }
    false
}

// Whether the module of the number is a user of the target's.
fn is_user(modules: &[Placed], live: &[bool], target: usize, number: usize) -> bool
    requires shaped { All IsShaped modules.now }
    requires live { length live.now ≡ length modules.now }
    requires target { target < length modules.now }
    requires number { number < length modules.now }
    ensures { IsTrue result ↔ IsUser modules.now live.now target number }
{
    if number == target {
        return false;
    }
    live[number] && jumps_into(&modules[number], &modules[target])
}

/// The number of the first other live module with a direct jump to a word of the module of the number `target`. `None`
/// where there is none.
///
/// Numbers count the modules of the list, from 0; `live` tells by number which are live. The modules are shaped. It
/// takes no memory, and reads each live module's code once at most.
pub fn user_of(modules: &[Placed], live: &[bool], target: u32) -> Option<u32>
    requires shaped { All IsShaped modules.now }
    requires few { length modules.now < 2 ^ 32 }
    requires live { length live.now ≡ length modules.now }
    requires target { target < length modules.now }
    ensures some { IfSome result (IsFirstUser modules.now live.now target) }
    ensures none { IfNone result ((number : ℕ) → IsUser modules.now live.now target number → ⊥) }
{
    for number in 0..modules.len() {
        if is_user(modules, live, target as usize, number) {
            return Some(number as u32);
        }
    }
    None
}
