// Which pairs of branch slots and targets a policy lets through.

ghost use Rattle.std.specs.Prelude.{◌≡◌};
ghost use Rattle.cfi_model.specs.Effect.{allows_by};
ghost use Rattle.cfi_model.specs.Plain.{has_one_class};
ghost use Rattle.cfi_model.specs.inner.Pairs.{allows_in};

use cfi_word::{Edge, Labels};

// A policy: its pairs of branch slots and targets.
#[derive(Clone, Copy)]
pub(crate) enum Pairs<'a> {
    // These.
    Listed(&'a [Edge]),
    // Those of one class.
    OneClass(&'a Labels),
}

// Whether the list has the pair.
fn allows(pairs: &[Edge], slot: u32, target: u32) -> bool
    ensures { result ≡ allows_by pairs.now slot target }
{
    pairs
        .iter()
        .any(|pair| pair.branch == slot && pair.target == target)
}

// Whether the pair has one class.
fn has_one_class(labels: &Labels, slot: u32, target: u32) -> bool
    ensures { result ≡ has_one_class labels.now slot target }
{
    let bary = labels.bary.as_slice();
    let tary = labels.tary.as_slice();
    let branch = slot as usize;
    let word = (target / 4) as usize;
    branch < bary.len() && word < tary.len() && bary[branch] == tary[word]
}

impl Pairs<'_> {
    // Whether the policy has the pair.
    pub(crate) fn allow(self, slot: u32, target: u32) -> bool
        ensures { result ≡ allows_in self.entry slot target }
    {
        match self {
            Pairs::Listed(pairs) => allows(pairs, slot, target),
            Pairs::OneClass(labels) => has_one_class(labels, slot, target),
        }
    }
}
