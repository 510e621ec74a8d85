//! Whether a step of a refinement would change classes.

ghost use Rattle.std.specs.Prelude.{◌≡◌, ◌≢◌, ◌<◌, Bool, true, false, length, map, slice_index, All};
ghost use Rattle.cfi_type_table.specs.Spelling.{NamesBelow};
ghost use Rattle.cfi_types.specs.inner.Splitting.{signature, IsClosed, IsLow, IsStill};

use crate::linked::{Linked, Named};

// Whether nodes have the classes of others, one by one.
fn have_classes(classes: &[u32], named: &Named, others: &Named) -> bool
    requires named { All (λ k. k < length classes.now) named.now }
    requires others { All (λ k. k < length classes.now) others.now }
    ensures same { result ≡ true → map (λ k. slice_index classes.now k) named.now
        ≡ map (λ k. slice_index classes.now k) others.now }
    ensures differ { result ≡ false → map (λ k. slice_index classes.now k) named.now
        ≢ map (λ k. slice_index classes.now k) others.now }
{
    if named.len() != others.len() {
        return false;
    }
    for i in 0..named.len() {
        if classes[named.at(i) as usize] != classes[others.at(i) as usize] {
            return false;
        }
    }
    true
}

// Whether two nodes have one signature.
fn are_alike(classes: &[u32], one: &Linked, other: &Linked) -> bool
    requires one { NamesBelow (length classes.now) one.now }
    requires other { NamesBelow (length classes.now) other.now }
    ensures same { result ≡ true → signature classes.now one.now ≡ signature classes.now other.now }
    ensures differ { result ≡ false
        → signature classes.now one.now ≢ signature classes.now other.now }
{
    let (numbers, named) = one.parts();
    let (other_numbers, others) = other.parts();
    if one.kind() != other.kind() {
        return false;
    }
    if numbers != other_numbers {
        return false;
    }
    have_classes(classes, &named, &others)
}

// Whether each node has the signature of the one that its class is named by.
//
// A node that names its class is not looked at.
pub(crate) fn are_still(nodes: &[Linked], classes: &[u32]) -> bool
    requires closed { IsClosed nodes.now }
    requires len { length classes.now ≡ length nodes.now }
    requires low { IsLow classes.now }
    ensures still { result ≡ true → IsStill nodes.now classes.now }
    ensures moves { result ≡ false → IsStill nodes.now classes.now → ⊥ }
{
    for a in 0..nodes.len() {
        let leader = classes[a] as usize;
        if leader != a && !are_alike(classes, &nodes[leader], &nodes[a]) {
            return false;
        }
    }
    true
}
