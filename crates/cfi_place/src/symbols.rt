//! Addresses by name.

ghost use Rattle.std.specs.Prelude.{◌≡◌, ℕ, List, None, OnOk, OnErr};
ghost use Rattle.cfi_place.specs.Names.{find_in, with_name};

use std::alloc::{AllocError, Global};
use std::collections::BTreeMap;

/// The names that modules define for others, with their addresses. A name keeps the first address that it got.
#[derive(Drop)]
pub struct Symbols {
    addresses: BTreeMap<String, u32>,
    alloc: Global,
}

impl Symbols {
    /// No names.
    #[tactic(auto, unfolding(crate::specs::Names::find_in))]
    pub fn new(alloc: Global) -> Symbols
        ensures { (name : List ℕ) → find_in result name ≡ None }
    {
        Symbols {
            addresses: BTreeMap::new(alloc),
            alloc,
        }
    }

    /// Adds a name with its address; one that is there keeps its own.
    #[tactic(auto, unfolding(crate::specs::Names::find_in), using(std::proofs::lemmas::Map::Text::text_keys))]
    pub fn add(&mut self, name: &str, address: u32) -> Result<(), AllocError>
        ensures ok { OnOk result ((other : List ℕ) →
            find_in self.new other ≡ with_name name.now address (find_in self.old) other) }
        ensures err { OnErr result ((other : List ℕ) →
            find_in self.new other ≡ find_in self.old other) }
    {
        let name = String::from_str(self.alloc, name)?;
        self.addresses.entry(name)?.or_insert(address);
        Ok(())
    }

    /// The address of a name, none where the name is not there.
    #[tactic(auto, unfolding(crate::specs::Names::find_in))]
    pub fn find(&self, name: &str) -> Option<u32>
        ensures { result ≡ find_in self.now name.now }
    {
        self.addresses.get(name).copied()
    }
}
