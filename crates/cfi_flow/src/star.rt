//! Links that are found by where they begin, and to which more are added.

ghost use Rattle.std.specs.Prelude.{◌≡◌, ◌↔◌, ◌⊎◌, ◌++◌, ◌∷◌, [], ℕ, ◌≤◌, length, slice_index_or, IfOk, OnOk};
ghost use Rattle.std.specs.List.{Contains};
ghost use Rattle.cfi_flow.specs.declared.links.Link.{Link as TheLink};
ghost use Rattle.cfi_flow.specs.inner.Star.{IsStar};

use crate::links::Link;
use std::alloc::{AllocError, Global};
use std::marker::Model;

/// Links, found by where they begin. They stand in few arrays, so that a copy of them is quickly made.
#[derive(Debug, Drop)]
pub(crate) struct Star {
    links: Vec<Link>,
    // By node one more than the number of the last link that begins there. Where none does it has 0, or no place.
    lasts: Vec<usize>,
    // By link one more than the number of the last one before it that begins where it does, or 0.
    befores: Vec<usize>,
}

// Clauses see the links.
impl Model for Star {
    ghost use Rattle.std.specs.Prelude.{List};
    ghost use Rattle.cfi_flow.specs.declared.links.Link.{Link as AnyLink};
    ghost use Rattle.cfi_flow.specs.inner.Star.{IsStar as KeepsStar};

    ghost Value = { List AnyLink };

    ghost view = { λ star. star.links.items };

    ghost invariant = { λ star. KeepsStar star.links.items star.lasts.items star.befores.items };
}

// Makes so many places; new ones have 0.
fn make_room(lasts: &mut Vec<usize>, count: usize) -> Result<(), AllocError>
    ensures room { OnOk result (count ≤ length lasts.new.items) }
    ensures same { OnOk result ((node : ℕ) →
        slice_index_or lasts.new.items node 0 ≡ slice_index_or lasts.old.items node 0) }
{
    if count > lasts.len() {
        lasts.resize(count, 0)?;
    }
    Ok(())
}

// One more than the number of the last link that begins at the node, or 0.
fn last_at(lasts: &[usize], node: u32) -> usize
    ensures { result ≡ slice_index_or lasts.now node 0 }
{
    lasts.get(node as usize).copied().unwrap_or(0)
}

// Adds a link at the end.
fn add(
    links: &mut Vec<Link>,
    lasts: &mut Vec<usize>,
    befores: &mut Vec<usize>,
    link: Link,
) -> Result<(), AllocError>
    requires { IsStar links.old.items lasts.old.items befores.old.items }
    ensures links { OnOk result (links.new.items ≡ links.old.items ++ link ∷ []) }
    ensures star { OnOk result (IsStar links.new.items lasts.new.items befores.new.items) }
{
    let node = link.from as usize;
    make_room(lasts, node + 1)?;
    befores.push(lasts[node])?;
    links.push(link)?;
    lasts[node] = links.len();
    Ok(())
}

impl Star {
    // No links.
    pub(crate) fn new(alloc: Global) -> Star
        ensures { result ≡ [] }
    {
        Star {
            links: Vec::new(alloc),
            lasts: Vec::new(alloc),
            befores: Vec::new(alloc),
        }
    }

    // A copy.
    pub(crate) fn copied(&self, alloc: Global) -> Result<Star, AllocError>
        ensures { IfOk result (λ star. star ≡ self.now) }
    {
        Ok(Star {
            links: Vec::from_slice(alloc, &self.links)?,
            lasts: Vec::from_slice(alloc, &self.lasts)?,
            befores: Vec::from_slice(alloc, &self.befores)?,
        })
    }

    // The star with further links at the end.
    pub(crate) fn grown(self, more: &[Link]) -> Result<Star, AllocError>
        ensures { IfOk result (λ star. star ≡ self ++ more.now) }
    {
        let Star {
            mut links,
            mut lasts,
            mut befores,
        } = self;
        for link in more {
            add(&mut links, &mut lasts, &mut befores, *link)?;
        }
        Ok(Star {
            links,
            lasts,
            befores,
        })
    }

    // Adds to the list the links that begin at the node.
    pub(crate) fn add_from(&self, list: &mut Vec<Link>, node: u32) -> Result<(), AllocError>
        ensures { OnOk result ((link : TheLink) → Contains list.new.items link ↔
            (Contains list.old.items link ⊎ (Contains self.now link × (link.from ≡ node)))) }
    {
        let mut at = last_at(&self.lasts, node);
        while at > 0 {
            list.push(self.links[at - 1])?;
            at = self.befores[at - 1];
        }
        Ok(())
    }
}
