//! Where the names are that placed modules export.

ghost use Rattle.std.specs.Prelude.{◌≡◌, ◌==◌, ◌+◌, ◌-◌, ◌<◌, ◌++◌, ℕ, List, length, take, slice_get, if◌then◌else◌, Option, Some, None, IfOk, OnOk};
ghost use Rattle.std.specs.Ordering.{nat_cmp};
ghost use Rattle.std.specs.BTreeMap.{get};
ghost use Rattle.cfi_aux.specs.declared.placed.Placed.{Placed as PlacedModule};
ghost use Rattle.cfi_place.specs.Names.{find_in, first_in, with_name};
ghost use Rattle.cfi_modules.specs.inner.Index.{digest_of, export_at, named_at, address_by, address_in, ArePlacesBelow, IsIndexOf};
ghost use Rattle.cfi_modules.specs.Series.{HasNames};

use cfi_aux::Placed;
use cfi_place::Symbols;
use std::alloc::{AllocError, Global};
use std::collections::BTreeMap;

/// The FNV prime of 32 bits, `2 ^ 24 + 2 ^ 8 + 0x93` (G. Fowler, L. C. Noll and K.-P. Vo, the FNV hash).
pub const FNV_PRIME: u32 = 16777619;

/// The place of an export: its module and its number there, both from 0.
#[derive(Clone, Copy)]
pub struct ExportPlace {
    /// The module's number.
    pub number: usize,
    /// The export's number in the module.
    pub export: usize,
}

/// Where the names are that modules export. The modules keep the names themselves.
#[derive(Drop)]
pub struct Index {
    // By the digest of a name.
    places: BTreeMap<u32, ExportPlace>,
    // Names whose digest leads to another one. A file may have as many of these as it likes.
    apart: Symbols,
}

#[tactic(auto, unfolding(crate::specs::inner::Index::digest_of))]
fn digest_of(name: &str) -> u32
    ensures { result ≡ digest_of name.now }
{
    let mut digest = 0u32;
    let mut bytes = name.as_bytes();
    while let [byte, rest @ ..] = bytes {
        digest = digest
            .wrapping_mul(FNV_PRIME)
            .wrapping_add(u32::from(*byte));
        bytes = rest;
    }
    digest
}

// The address of the export at a place, if it has this name.
fn named_at(placed: &[Placed], place: ExportPlace, name: &str) -> Option<u32>
    ensures { result ≡ named_at placed.now name.now place }
{
    let one = placed.get(place.number)?;
    let export = one.exports.as_slice().get(place.export)?;
    if export.0.as_str() == name {
        Some(export.1)
    } else {
        None
    }
}

fn put_place(
    places: &mut BTreeMap<u32, ExportPlace>,
    digest: u32,
    place: ExportPlace,
) -> Result<(), AllocError>
    ensures { OnOk result ((other : ℕ) → get nat_cmp places.new other
        ≡ (if other == digest then Some place else get nat_cmp places.old other)) }
{
    places.insert(digest, place)?;
    Ok(())
}

impl Index {
    // No names.
    fn new(alloc: Global) -> Index
        ensures none { (placed : List PlacedModule) (name : List ℕ) →
            address_in placed result name ≡ None }
        ensures below { ArePlacesBelow 0 result }
    {
        Index {
            places: BTreeMap::new(alloc),
            apart: Symbols::new(alloc),
        }
    }

    fn address_by(&self, placed: &[Placed], place: Option<ExportPlace>, name: &str) -> Option<u32>
        ensures { result ≡ address_by placed.now (find_in self.now.apart) name.now place }
    {
        if let Some(place) = place {
            if let Some(address) = named_at(placed, place, name) {
                return Some(address);
            }
        }
        self.apart.find(name)
    }

    /// The address of a name that the modules export.
    pub fn find(&self, placed: &[Placed], name: &str) -> Option<u32>
        ensures { result ≡ address_in placed.now self.now name.now }
    {
        let place = self.places.get(&digest_of(name)).copied();
        self.address_by(placed, place, name)
    }

    // Adds the name of the export at a place; one that is there keeps its own address.
    fn add(
        &mut self,
        placed: &[Placed],
        place: ExportPlace,
        name: &str,
        address: u32,
    ) -> Result<(), AllocError>
        requires { export_at placed.now place ≡ Some (name.now, address) }
        ensures names { OnOk result ((other : List ℕ) → address_in placed.now self.new other
            ≡ with_name name.now address (address_in placed.now self.old) other) }
        ensures below { OnOk result ((bound : ℕ) → place.number < bound →
            ArePlacesBelow bound self.old → ArePlacesBelow bound self.new) }
    {
        let digest = digest_of(name);
        let found = self.places.get(&digest).copied();
        if self.address_by(placed, found, name).is_some() {
            return Ok(());
        }
        match found {
            Some(_) => self.apart.add(name, address),
            None => put_place(&mut self.places, digest, place),
        }
    }

    // Adds the names that a module exports, which is the one of this number.
    fn add_module(
        &mut self,
        placed: &[Placed],
        number: usize,
        one: &Placed,
    ) -> Result<(), AllocError>
        requires { slice_get placed.now number ≡ Some one.now }
        ensures names { (before : List (List ℕ × ℕ)) →
            ((name : List ℕ) → address_in placed.now self.old name ≡ first_in before name) →
            OnOk result ((name : List ℕ) →
            address_in placed.now self.new name ≡ first_in (before ++ one.now.exports) name) }
        ensures below { ArePlacesBelow (number + 1) self.old →
            OnOk result (ArePlacesBelow (number + 1) self.new) }
    {
        let exports = one.exports.as_slice();
        for export in 0..exports.len() {
            let (name, address) = &exports[export];
            let place = ExportPlace { number, export };
            self.add(placed, place, name.as_str(), *address)?;
        }
        Ok(())
    }

    // With the names of the last module too, which has come behind the others.
    fn with_last(mut self, placed: &[Placed]) -> Result<Index, AllocError>
        requires some { 0 < length placed.now }
        requires index { IsIndexOf (take (length placed.now - 1) placed.now) self }
        ensures { IfOk result (IsIndexOf placed.now) }
    {
        let number = placed.len() - 1;
        self.add_module(placed, number, &placed[number])?;
        Ok(self)
    }
}

// Where the names are that the modules export.
fn made(alloc: Global, placed: &[Placed]) -> Result<Index, AllocError>
    ensures { IfOk result (IsIndexOf placed.now) }
{
    let mut index = Index::new(alloc);
    for number in 0..placed.len() {
        index.add_module(placed, number, &placed[number])?;
    }
    Ok(index)
}

/// Where the names are that the modules export: what is kept, or else made anew.
pub fn index_of(alloc: Global, kept: Option<Index>, placed: &[Placed]) -> Result<Index, AllocError>
    requires { HasNames placed.now kept }
    ensures { IfOk result (IsIndexOf placed.now) }
{
    match kept {
        Some(index) => Ok(index),
        None => made(alloc, placed),
    }
}

/// What is kept of where the names are, with those of the last module, which has come behind the others.
pub fn with_last(kept: Option<Index>, placed: &[Placed]) -> Option<Index>
    requires some { 0 < length placed.now }
    requires kept { HasNames (take (length placed.now - 1) placed.now) kept }
    ensures { HasNames placed.now result }
{
    kept?.with_last(placed).ok()
}
