//! Classes of nodes by labels, and then by digests of what their nodes name.

ghost use Rattle.std.specs.Prelude.{◌≡◌, ◌<◌, ◌^◌, length, IfOk};
ghost use Rattle.cfi_type_table.specs.Spelling.{NamesBelow};
ghost use Rattle.cfi_types.specs.inner.Splitting.{IsClosed};
ghost use Rattle.cfi_types.specs.inner.Digest.{sifted_by};
ghost use Rattle.cfi_types.specs.inner.Keeping.{label_of, KeepEqual};

use crate::digest::digest;
use crate::leader::Firsts;
use crate::linked::Linked;
use crate::plan::sizes_of;
use cfi_word::limits::MAX_FIELDS;
use std::alloc::{AllocError, Global};

// How often nodes are sifted, at most.
const ROUNDS: u32 = 4;

// What is known of a node without those that it names.
fn label_of(alloc: Global, node: &Linked) -> Result<Vec<u32>, AllocError>
    ensures { IfOk result (λ label. label.items ≡ label_of node.now) }
{
    let (numbers, named) = node.parts();
    let mut label = Vec::new(alloc);
    label.push(node.kind())?;
    label.push(named.len().min(MAX_FIELDS as usize) as u32)?;
    label.extend_from_slice(numbers)?;
    Ok(label)
}

// The classes of nodes of one kind, with the same numbers, that name as many nodes.
fn labels(alloc: Global, nodes: &[Linked]) -> Result<Vec<u32>, AllocError>
    requires fits { length nodes.now < 2 ^ 32 }
    ensures { IfOk result (λ classes. KeepEqual nodes.now classes.items) }
{
    let mut firsts = Firsts::new(alloc, 0)?;
    let mut classes = Vec::with_capacity(alloc, nodes.len())?;
    for (a, node) in nodes.iter().enumerate() {
        let label = label_of(alloc, node)?;
        classes.push(firsts.signed(label, a as u32)?)?;
    }
    Ok(classes)
}

// By what a node is sifted that is in a class of this size.
fn sieve(
    alloc: Global,
    class: u32,
    size: u32,
    node: &Linked,
    classes: &[u32],
) -> Result<Vec<u32>, AllocError>
    requires { NamesBelow (length classes.now) node.now }
    ensures { IfOk result (λ key. key.items ≡ sifted_by classes.now class size node.now) }
{
    let mut key = Vec::with_capacity(alloc, 2)?;
    key.push(class)?;
    key.push(if size == 1 { 0 } else { digest(node, classes) })?;
    Ok(key)
}

// Parts of these classes: a part has the nodes of its class that have one digest.
fn sift(alloc: Global, nodes: &[Linked], classes: &[u32]) -> Result<Vec<u32>, AllocError>
    requires fits { length nodes.now < 2 ^ 32 }
    requires closed { IsClosed nodes.now }
    requires keep { KeepEqual nodes.now classes.now }
    ensures { IfOk result (λ parts. KeepEqual nodes.now parts.items) }
{
    let sizes = sizes_of(alloc, classes)?;
    let mut firsts = Firsts::new(alloc, 0)?;
    let mut parts = Vec::with_capacity(alloc, nodes.len())?;
    for (a, node) in nodes.iter().enumerate() {
        let class = classes[a];
        let key = sieve(alloc, class, sizes[class as usize], node, classes)?;
        parts.push(firsts.signed(key, a as u32)?)?;
    }
    Ok(parts)
}

// How many classes there are: each is named by one of its nodes.
fn count_of(classes: &[u32]) -> usize {
    let mut count = 0usize;
    for a in 0..classes.len() {
        if classes[a] as usize == a {
            count = count.saturating_add(1);
        }
    }
    count
}

// Classes that keep equal nodes together, as fine as some rounds of sifting make them. Each takes one look at the
// fields of nodes that are not alone in their classes, and is made as long as the last has made twice as many classes.
pub(crate) fn sifted(alloc: Global, nodes: &[Linked]) -> Result<Vec<u32>, AllocError>
    requires fits { length nodes.now < 2 ^ 32 }
    requires closed { IsClosed nodes.now }
    ensures { IfOk result (λ classes. KeepEqual nodes.now classes.items) }
{
    let mut classes = labels(alloc, nodes)?;
    for _ in 0..ROUNDS {
        let before = count_of(classes.as_slice());
        classes = sift(alloc, nodes, classes.as_slice())?;
        if count_of(classes.as_slice()) / 2 < before {
            break;
        }
    }
    Ok(classes)
}
