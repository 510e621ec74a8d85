//! The nearest wider one of each of signatures that are in order.
//!
//! What begins with a key stands, in order, in one run after it. So the wider ones of a signature that stand before the
//! one ahead of it are wider than that one too, and only those have to be looked at.

ghost use Rattle.std.specs.Prelude.{◌≡◌, ◌<◌, ◌≤◌, true, length, IfOk};
ghost use Rattle.cfi_fits.specs.inner.Prefix.{IsPrefix};
ghost use Rattle.cfi_fits.specs.inner.Signatures.{AreInOrder};
ghost use Rattle.cfi_fits.specs.inner.Nearest.{IsCandidate, IsNearest, AreNearest};

use crate::signature::Signature;
use std::alloc::{AllocError, Global};

// Whether the key begins with the other list.
fn begins_with(key: &[u32], front: &[u32]) -> bool
    ensures yes { result ≡ true → IsPrefix front.now key.now }
    ensures only { IsPrefix front.now key.now → result ≡ true }
{
    key.starts_with(front)
}

// The signature ahead of this place, or what is the nearest of that.
fn candidate_of(signatures: &[Signature], nearest: &[Option<usize>], place: usize) -> Option<usize>
    requires place { place < length signatures.now }
    requires order { AreInOrder signatures.now }
    requires nearest { AreNearest signatures.now nearest.now place }
    ensures { IsCandidate signatures.now place result }
{
    if place == 0 {
        return None;
    }
    if signatures[place - 1].fixed {
        return nearest[place - 1];
    }
    Some(place - 1)
}

// The nearest wider one of this place.
//
// Each candidate that is dropped is none for a later place: the work is proportional to the places.
fn nearest_of(signatures: &[Signature], nearest: &[Option<usize>], place: usize) -> Option<usize>
    requires place { place < length signatures.now }
    requires order { AreInOrder signatures.now }
    requires nearest { AreNearest signatures.now nearest.now place }
    ensures { IsNearest signatures.now place result }
{
    let key = signatures[place].key.as_slice();
    let mut candidate = candidate_of(signatures, nearest, place);
    loop {
        let Some(at) = candidate else {
            return None;
        };
        if begins_with(key, signatures[at].key.as_slice()) {
            return Some(at);
        }
        candidate = nearest[at];
    }
}

// The nearest wider one of each place.
pub(crate) fn nearest_all(
    alloc: Global,
    signatures: &[Signature],
) -> Result<Vec<Option<usize>>, AllocError>
    requires { AreInOrder signatures.now }
    ensures { IfOk result (λ nearest.
        AreNearest signatures.now nearest.items (length signatures.now)) }
{
    let mut nearest = Vec::with_capacity(alloc, signatures.len())?;
    for place in 0..signatures.len() {
        let found = nearest_of(signatures, nearest.as_slice(), place);
        nearest.push(found)?;
    }
    Ok(nearest)
}
