ghost use Rattle.std.specs.Prelude.{◌≡◌, ◌⊎◌, ℕ, ◌+◌, ◌<◌, ◌≤◌, length, slice_index, IfOk};
ghost use Rattle.cfi_policy.specs.Code.{LieApart, IsCodeOf};

use cfi_aux::Placed;
use cfi_values::Numbers;
use cfi_word::Layout;
use std::alloc::{AllocError, Global};

// Puts the words into the code, from this place on.
pub(crate) fn put(code: &mut [u32], place: usize, words: &[u32])
    requires { place + length words.now ≤ length code.old }
    ensures placed { (k : ℕ) → k < length words.now
        → slice_index code.new (place + k) ≡ slice_index words.now k }
    ensures kept { (word : ℕ) → (word < place) ⊎ (place + length words.now ≤ word)
        → slice_index code.new word ≡ slice_index code.old word }
{
    code[place..place + words.len()].copy_from_slice(words);
}

/// The words of the modules at their places, and 0 elsewhere.
///
/// The modules lie apart, in the order of their places, and end within the layout.
pub fn code_of(alloc: Global, modules: &[Placed], layout: &Layout) -> Result<Numbers, AllocError>
    requires { LieApart modules.now layout.now }
    ensures { IfOk result (IsCodeOf modules.now layout.now) }
{
    let mut code = vec![in alloc; 0; layout.code_words() as usize]?;
    for placed in modules {
        put(
            code.as_mut_slice(),
            placed.base as usize,
            placed.words.as_slice(),
        );
    }
    Ok(Numbers::from_vec(code))
}
