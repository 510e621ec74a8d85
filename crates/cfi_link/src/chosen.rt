//! Which definition of a name is chosen.

ghost use Rattle.std.specs.Prelude.{◌≡◌, ◌<◌, ◌^◌, List, ℕ, false, None, Some, is_some, length, IfOk, IfErr, OnOk, if◌then◌else◌};
ghost use Rattle.cfi_place.specs.Names.{find_in, with_name};
ghost use Rattle.cfi_link.specs.declared.fault.LinkFault.TheVariants as faults;
ghost use Rattle.cfi_link.specs.Chosen.{defines_global, defines_weak, is_second, loses, chosen_in, twice_in};
ghost use Rattle.cfi_link.specs.inner.Kept.{chosen_by, with_defined, IsTwice};

use crate::fault::LinkFault;
use cfi_place::Symbols;
use elf_read::{Binding, Name, Place, Symbol};
use std::alloc::{AllocError, Global};

/// The definitions of names by the numbers of their symbols: the first global one and the first weak one of each.
#[derive(Drop)]
pub struct Definitions {
    globals: Symbols,
    weaks: Symbols,
}

// The name of a symbol, as a fault.
fn twice(alloc: Global, symbol: &Symbol) -> Result<LinkFault, AllocError>
    ensures { IfOk result (λ fault. fault ≡ faults.Twice symbol.now.name) }
{
    let name = String::from_str(alloc, symbol.name.as_str())?;
    Ok(LinkFault::Twice(Name::from_string(name)))
}

impl Definitions {
    // None.
    fn new(alloc: Global) -> Definitions
        ensures globals { (name : List ℕ) → find_in result.globals name ≡ None }
        ensures weaks { (name : List ℕ) → find_in result.weaks name ≡ None }
    {
        Definitions {
            globals: Symbols::new(alloc),
            weaks: Symbols::new(alloc),
        }
    }

    // Adds a global definition.
    fn add_global(&mut self, alloc: Global, number: u32, symbol: &Symbol) -> Result<(), LinkFault>
        ensures globals { OnOk result ((name : List ℕ) → find_in self.new.globals name
            ≡ with_name symbol.now.name number (find_in self.old.globals) name) }
        ensures weaks { OnOk result (self.new.weaks ≡ self.old.weaks) }
        ensures once { OnOk result (is_some (find_in self.old.globals symbol.now.name) ≡ false) }
        ensures fault { IfErr result (λ fault. IsTwice fault
            (if is_some (find_in self.old.globals symbol.now.name) then Some symbol.now.name
            else None)) }
    {
        let name = symbol.name.as_str();
        if self.globals.find(name).is_some() {
            return Err(twice(alloc, symbol)?);
        }
        self.globals.add(name, number)?;
        Ok(())
    }

    // Adds the definition that the symbol of a number is, where it is one. `Twice` where it defines a name as a global
    // one that has such a definition.
    fn add(&mut self, alloc: Global, number: u32, symbol: &Symbol) -> Result<(), LinkFault>
        ensures globals { OnOk result ((name : List ℕ) → find_in self.new.globals name
            ≡ with_defined (defines_global symbol.now) symbol.now.name number
            (find_in self.old.globals) name) }
        ensures weaks { OnOk result ((name : List ℕ) → find_in self.new.weaks name
            ≡ with_defined (defines_weak symbol.now) symbol.now.name number
            (find_in self.old.weaks) name) }
        ensures once { OnOk result (is_second (find_in self.old.globals) symbol.now ≡ false) }
        ensures fault { IfErr result (λ fault. IsTwice fault
            (if is_second (find_in self.old.globals) symbol.now then Some symbol.now.name
            else None)) }
    {
        if symbol.place == Place::Undefined {
            return Ok(());
        }
        let name = symbol.name.as_str();
        match symbol.binding {
            Binding::Local => Ok(()),
            Binding::Global => self.add_global(alloc, number, symbol),
            Binding::Weak => {
                self.weaks.add(name, number)?;
                Ok(())
            }
        }
    }

    /// The number of the definition that is chosen for a name.
    pub fn find(&self, name: &str) -> Option<u32>
        ensures { result ≡ chosen_by self.now name.now }
    {
        match self.globals.find(name) {
            Some(number) => Some(number),
            None => self.weaks.find(name),
        }
    }

    /// Whether the symbol of a number is a definition that is not chosen.
    pub fn loses(&self, number: u32, symbol: &Symbol) -> bool
        ensures { result ≡ loses (chosen_by self.now) (number, symbol.now) }
    {
        symbol.binding != Binding::Local
            && symbol.place != Place::Undefined
            && self.find(symbol.name.as_str()) != Some(number)
    }
}

/// The definitions among symbols, or the first name that is defined as a global one twice.
pub fn choose(alloc: Global, symbols: &[Symbol]) -> Result<Definitions, LinkFault>
    requires { length symbols.now < 2 ^ 32 }
    ensures ok { IfOk result (λ found. (name : List ℕ) →
        chosen_by found name ≡ chosen_in symbols.now name) }
    ensures once { OnOk result (twice_in symbols.now ≡ None) }
    ensures fault { IfErr result (λ fault. IsTwice fault (twice_in symbols.now)) }
{
    let mut definitions = Definitions::new(alloc);
    for (k, symbol) in symbols.iter().enumerate() {
        if let Err(fault) = definitions.add(alloc, k as u32, symbol) {
            return Err(fault);
        }
    }
    Ok(definitions)
}
