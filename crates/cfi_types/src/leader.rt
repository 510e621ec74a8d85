//! The first node of each key that has come.

ghost use Rattle.std.specs.Prelude.{◌≡◌, ℕ, ◌<◌, List, [], ◌∷◌, None, length, vec_len, IfOk};
ghost use Rattle.cfi_type_table.specs.Spelling.{NamesBelow};
ghost use Rattle.cfi_types.specs.inner.Splitting.{signature};
ghost use Rattle.cfi_types.specs.inner.Leader.{first_of, PutsFirst};

use crate::linked::Linked;
use std::alloc::{AllocError, Global};
use std::collections::BTreeMap;

/// The first node of each class alone, and of each class and signature.
#[derive(Drop)]
pub(crate) struct Firsts {
    alone: Vec<Option<u32>>,
    signed: BTreeMap<Vec<u32>, u32>,
}

// A class, and a node's signature.
pub(crate) fn key(
    alloc: Global,
    class: u32,
    node: &Linked,
    classes: &[u32],
) -> Result<Vec<u32>, AllocError>
    requires { NamesBelow (length classes.now) node.now }
    ensures { IfOk result (λ key. key.items ≡ class ∷ signature classes.now node.now) }
{
    let (numbers, named) = node.parts();
    let mut key = Vec::with_capacity(alloc, numbers.len() + named.len())?;
    key.push(class)?;
    key.push(node.kind())?;
    key.extend_from_slice(numbers)?;
    for place in 0..named.len() {
        key.push(classes[named.at(place) as usize])?;
    }
    Ok(key)
}

impl Firsts {
    // None, of nodes in this many classes.
    pub(crate) fn new(alloc: Global, classes: usize) -> Result<Firsts, AllocError>
        ensures none { IfOk result (λ firsts. (q : List ℕ) → first_of firsts q ≡ None) }
        ensures len { IfOk result (λ firsts. vec_len firsts.alone ≡ classes) }
    {
        Ok(Firsts {
            alone: vec![in alloc; None; classes]?,
            signed: BTreeMap::new(alloc),
        })
    }

    // The first node of this class: `node`, where none has come.
    pub(crate) fn alone(&mut self, class: u32, node: u32) -> u32
        requires { class < vec_len self.old.alone }
        ensures first { PutsFirst (first_of self.old) (first_of self.new) (class ∷ []) node result }
        ensures len { vec_len self.new.alone ≡ vec_len self.old.alone }
    {
        if let Some(first) = self.alone[class as usize] {
            return first;
        }
        self.alone[class as usize] = Some(node);
        node
    }

    // The first node of this class and signature: `node`, where none has come.
    pub(crate) fn signed(&mut self, key: Vec<u32>, node: u32) -> Result<u32, AllocError>
        requires { 1 < vec_len key }
        ensures first { IfOk result (λ first.
            PutsFirst (first_of self.old) (first_of self.new) key.items node first) }
        ensures len { vec_len self.new.alone ≡ vec_len self.old.alone }
    {
        if let Some(first) = self.signed.get(key.as_slice()) {
            return Ok(*first);
        }
        self.signed.insert(key, node)?;
        Ok(node)
    }
}
