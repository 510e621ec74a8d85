//! Digests of what is known of nodes: nodes with one signature have one digest, others seldom.

ghost use Rattle.std.specs.Prelude.{◌≡◌, ◌<◌, length, map, slice_index, All};
ghost use Rattle.std.specs.List.{fold};
ghost use Rattle.cfi_type_table.specs.Spelling.{NamesBelow};
ghost use Rattle.cfi_types.specs.inner.Splitting.{signature};
ghost use Rattle.cfi_types.specs.inner.Digest.{mixed, digest_of};

use crate::linked::{Linked, Named};

/// What a digest is multiplied by for each word: odd, so that no bit of what came before is lost.
pub(crate) const FACTOR: u32 = 0x9e37_79b1;

fn mixed(digest: u32, word: u32) -> u32
    ensures { result ≡ mixed digest word }
{
    digest.wrapping_mul(FACTOR).wrapping_add(word)
}

fn mix_words(start: u32, words: &[u32]) -> u32
    ensures { result ≡ fold mixed start words.now }
{
    let mut digest = start;
    for word in words {
        digest = mixed(digest, *word);
    }
    digest
}

fn mix_classes(start: u32, named: &Named, classes: &[u32]) -> u32
    requires { All (λ k. k < length classes.now) named.now }
    ensures { result ≡ fold mixed start (map (λ k. slice_index classes.now k) named.now) }
{
    let mut digest = start;
    for place in 0..named.len() {
        digest = mixed(digest, classes[named.at(place) as usize]);
    }
    digest
}

// The digest of the node's signature.
pub(crate) fn digest(node: &Linked, classes: &[u32]) -> u32
    requires { NamesBelow (length classes.now) node.now }
    ensures { result ≡ digest_of (signature classes.now node.now) }
{
    let (numbers, named) = node.parts();
    let start = mix_words(mixed(0, node.kind()), numbers);
    mix_classes(start, &named, classes)
}
