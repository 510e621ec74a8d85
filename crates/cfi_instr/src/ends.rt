//! Which words functions have, in whatever order they stand.

ghost use Rattle.std.specs.Prelude.{◌≡◌, ◌<◌, ◌^◌, length, IfOk};
ghost use Rattle.cfi_instr.specs.inner.Ends.{first_word, Raises, AreCarried, is_before_end, AreEnds};

use crate::functions::end_of;
use cfi_aux::Function;
use std::alloc::{AllocError, Global};

// The first word that begins where the function does or after it.
fn first_word(function: &Function) -> usize
    ensures { result ≡ first_word function.now }
{
    (function.offset as usize + 3) / 4
}

// Raises the end at a word to another, where that is greater.
fn raise(ends: &mut Vec<usize>, w: usize, to: usize)
    ensures len { length ends.new.items ≡ length ends.old.items }
    ensures each { Raises ends.old.items w to ends.new.items }
{
    if w < ends.len() && ends[w] < to {
        ends[w] = to;
    }
}

// Carries each end on to the words after it that have lesser ones.
fn carry(ends: &mut Vec<usize>)
    ensures len { length ends.new.items ≡ length ends.old.items }
    ensures each { AreCarried ends.old.items ends.new.items (length ends.old.items) }
{
    for w in 1..ends.len() {
        let before = ends[w - 1];
        raise(ends, w, before);
    }
}

/// For each word the greatest end, in bytes, of the functions that begin at the word or before it.
pub(crate) fn ends_of(
    alloc: Global,
    functions: &[Function],
    count: usize,
) -> Result<Vec<usize>, AllocError>
    ensures { IfOk result (λ ends. AreEnds functions.now count ends.items) }
{
    let mut ends = vec![in alloc; 0; count]?;
    for function in functions {
        raise(&mut ends, first_word(function), end_of(function));
    }
    carry(&mut ends);
    Ok(ends)
}

/// Whether the word begins before the end that the table has for it.
pub(crate) fn is_before_end(ends: &[usize], w: usize) -> bool
    requires { w < 2 ^ 61 }
    ensures { result ≡ is_before_end ends.now w }
{
    match ends.get(w) {
        Some(end) => 4 * w < *end,
        None => false,
    }
}
