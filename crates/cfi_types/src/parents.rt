//! Which nodes name each node, and where.

ghost use Rattle.std.specs.Prelude.{◌≡◌, ◌<◌, ◌^◌, length, min, vec_len, All, IfOk, OnOk};
ghost use Rattle.cfi_word.specs.declared.limits.TheConstants.{MAX_FIELDS};
ghost use Rattle.cfi_types.specs.inner.Splitting.{IsClosed};
ghost use Rattle.cfi_types.specs.inner.Parents.{AddsNames, AreParents};

use crate::linked::{Linked, Named};
use crate::lists::Lists;
use cfi_word::limits::MAX_FIELDS;
use std::alloc::{AllocError, Global};

/// A node, and a place among the nodes that it names.
#[derive(Clone, Copy)]
pub(crate) struct Name {
    pub(crate) node: u32,
    pub(crate) place: u32,
}

// Adds where the node of this number names others.
fn add_names(parents: &mut Lists<Name>, named: &Named, number: u32) -> Result<(), AllocError>
    requires { All (λ k. k < length parents.old) named.now }
    ensures { OnOk result (AddsNames parents.old named.now number
        (min (length named.now) MAX_FIELDS) parents.new) }
{
    let count = named.len().min(MAX_FIELDS as usize);
    for place in 0..count {
        let name = Name {
            node: number,
            place: place as u32,
        };
        parents.add(named.at(place), name)?;
    }
    Ok(())
}

// Counts each of the nodes once more.
fn count_each(counts: &mut Vec<u32>, named: &Named)
    requires { All (λ k. k < vec_len counts.old) named.now }
    ensures { vec_len counts.new ≡ vec_len counts.old }
{
    for place in 0..named.len() {
        let k = named.at(place) as usize;
        counts[k] = counts[k].saturating_add(1);
    }
}

// How often nodes name each node.
fn counts_of(alloc: Global, nodes: &[Linked]) -> Result<Vec<u32>, AllocError>
    requires closed { IsClosed nodes.now }
    ensures { IfOk result (λ counts. vec_len counts ≡ length nodes.now) }
{
    let mut counts = vec![in alloc; 0u32; nodes.len()]?;
    for node in nodes {
        let (_, named) = node.parts();
        count_each(&mut counts, &named);
    }
    Ok(counts)
}

// Where each node is named, at the first `MAX_FIELDS` places of nodes.
pub(crate) fn parents_of(alloc: Global, nodes: &[Linked]) -> Result<Lists<Name>, AllocError>
    requires fits { length nodes.now < 2 ^ 32 }
    requires closed { IsClosed nodes.now }
    ensures { IfOk result (λ parents. AreParents nodes.now (length nodes.now) parents) }
{
    let counts = counts_of(alloc, nodes)?;
    let mut parents = Lists::with_room(alloc, counts.as_slice())?;
    for (number, node) in nodes.iter().enumerate() {
        let (_, named) = node.parts();
        add_names(&mut parents, &named, number as u32)?;
    }
    Ok(parents)
}
