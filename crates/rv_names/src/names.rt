//! The names of a source.

ghost use Rattle.std.specs.Prelude.{◌≡◌, ◌+◌, ◌^◌, ◌<◌, ◌++◌, ◌∷◌, [], length, List, ℕ, Some, None, if◌then◌else◌, IfOk, OnOk, OnErr, map};
ghost use Rattle.std.specs.BTreeMap.{get_by_text};
ghost use Rattle.std.specs.Option.{option_or};
ghost use Rattle.std.specs.Str.{bytes_eq};
ghost use Rattle.rv_names.specs.Names.{number_in, definition_in, text_value, with_name, with_definition, with_export, in_order, place_of, symbol_of, value_of};

use elf_read::{Area, Binding, Name, Place, Symbol, Symbols};
use std::alloc::{AllocError, Global};
use std::collections::BTreeMap;
use std::marker::Model;

/// Where a name is defined.
#[derive(Clone, Copy, Debug, PartialEq, Eq)]
pub struct Definition {
    /// The number of its line, from 1.
    pub line: u32,
    /// What it is a place of.
    pub area: Area,
    /// The place, in bytes from the start of the text or data.
    pub value: u32,
}

impl Definition {
    ghost use Rattle.std.specs.Prelude.{◌≡◌};
    ghost use Rattle.rv_names.specs.Names.{value_in_text, place_in};

    // Its place, where it is one of the text.
    fn value_in_text(self) -> Option<u32>
        ensures { result ≡ value_in_text self }
    {
        match self.area {
            Area::Text => Some(self.value),
            Area::Data => None,
        }
    }

    fn place(self) -> Place
        ensures { result ≡ place_in self.area }
    {
        match self.area {
            Area::Text => Place::Text,
            Area::Data => Place::Data,
        }
    }
}

// Where a symbol with this definition is.
fn place_of(definition: Option<Definition>) -> Place
    ensures { result ≡ place_of definition }
{
    match definition {
        Some(definition) => definition.place(),
        None => Place::Undefined,
    }
}

fn value_of(definition: Option<Definition>) -> u32
    ensures { result ≡ value_of definition }
{
    match definition {
        Some(definition) => definition.value,
        None => 0,
    }
}

/// A name of a source.
#[derive(Debug, Drop)]
pub struct Entry {
    /// The name.
    pub name: Name,
    /// Its first definition, if the source has one.
    pub definition: Option<Definition>,
    /// Whether a `.globl` has it.
    pub exported: bool,
}

/// Names in an order, each with its number.
#[derive(Drop)]
pub struct Names {
    entries: Vec<Entry>,
    numbers: BTreeMap<String, u32>,
}

// Clauses see the entries. A call that lacks memory leaves them as they were.
impl Model for Names {
    ghost use Rattle.std.specs.Prelude.{List};
    ghost use Rattle.rv_names.specs.declared.names.Entry.{Entry};

    ghost Value = { List Entry };

    ghost use Rattle.rv_names.specs.Kept.{IsNumbered};

    ghost view = { λ names. names.entries.items };

    ghost invariant = { IsNumbered };
}

// Gives a name this number, where it has none.
fn give_number(
    alloc: Global,
    numbers: &mut BTreeMap<String, u32>,
    name: &str,
    number: u32,
) -> Result<(), AllocError>
    ensures ok { OnOk result ((other : List ℕ) → get_by_text numbers.new other
        ≡ option_or (get_by_text numbers.old other)
        (if bytes_eq name.now other then Some number else None)) }
    ensures err { OnErr result
        ((other : List ℕ) → get_by_text numbers.new other ≡ get_by_text numbers.old other) }
{
    if numbers.get(name).is_some() {
        return Ok(());
    }
    let key = String::from_str(alloc, name)?;
    numbers.insert(key, number)?;
    Ok(())
}

impl Names {
    /// No names.
    pub fn new(alloc: Global) -> Names
        ensures { result ≡ [] }
    {
        Names {
            entries: Vec::new(alloc),
            numbers: BTreeMap::new(alloc),
        }
    }

    /// How many names there are.
    pub fn count(&self) -> u32
        ensures { result ≡ length self.now }
    {
        self.entries.len() as u32
    }

    /// The number of a name, if it is there.
    pub fn number_of(&self, name: &str) -> Option<u32>
        ensures { result ≡ number_in self.now name.now }
    {
        self.numbers.get(name).copied()
    }

    /// The first definition of a name, if there is one.
    pub fn definition_of(&self, name: &str) -> Option<Definition>
        ensures { result ≡ definition_in self.now name.now }
    {
        match self.number_of(name) {
            Some(number) => self.entries[number as usize].definition,
            None => None,
        }
    }

    /// Where the text has a name, in bytes from its start.
    pub fn text_value(&self, name: &str) -> Option<u32>
        ensures { result ≡ text_value self.now name.now }
    {
        match self.definition_of(name) {
            Some(definition) => definition.value_in_text(),
            None => None,
        }
    }

    /// Adds an entry at the end.
    pub fn push(&mut self, alloc: Global, entry: Entry) -> Result<(), AllocError>
        requires { length self.old + 1 < 2 ^ 32 }
        ensures ok { OnOk result (self.new ≡ self.old ++ entry ∷ []) }
        ensures err { OnErr result (self.new ≡ self.old) }
    {
        let number = self.entries.len();
        self.entries.reserve(1)?;
        give_number(alloc, &mut self.numbers, entry.name.as_str(), number as u32)?;
        self.entries.push_reserved(entry);
        Ok(())
    }

    // The place of a name's entry, which is added where there is none.
    fn place_of(&mut self, alloc: Global, name: &str) -> Result<usize, AllocError>
        requires { length self.old + 1 < 2 ^ 32 }
        ensures ok { OnOk result (self.new ≡ with_name self.old name.now) }
        ensures place { IfOk result (λ place. number_in self.new name.now ≡ Some place) }
        ensures err { OnErr result (self.new ≡ self.old) }
    {
        if let Some(number) = self.number_of(name) {
            return Ok(number as usize);
        }
        let number = self.entries.len();
        let entry = Entry {
            name: Name::from_string(String::from_str(alloc, name)?),
            definition: None,
            exported: false,
        };
        self.push(alloc, entry)?;
        Ok(number)
    }

    /// A name occurs.
    pub fn mention(&mut self, alloc: Global, name: &str) -> Result<(), AllocError>
        requires { length self.old + 1 < 2 ^ 32 }
        ensures ok { OnOk result (self.new ≡ with_name self.old name.now) }
        ensures err { OnErr result (self.new ≡ self.old) }
    {
        self.place_of(alloc, name)?;
        Ok(())
    }

    /// A name is defined; the first definition stands.
    pub fn define(
        &mut self,
        alloc: Global,
        name: &str,
        definition: Definition,
    ) -> Result<(), AllocError>
        requires { length self.old + 1 < 2 ^ 32 }
        ensures ok { OnOk result (self.new ≡ with_definition self.old name.now definition) }
        ensures err { OnErr result (self.new ≡ self.old) }
    {
        let place = self.place_of(alloc, name)?;
        self.entries[place].define(definition);
        Ok(())
    }

    /// A name is seen by other objects.
    pub fn export(&mut self, alloc: Global, name: &str) -> Result<(), AllocError>
        requires { length self.old + 1 < 2 ^ 32 }
        ensures ok { OnOk result (self.new ≡ with_export self.old name.now) }
        ensures err { OnErr result (self.new ≡ self.old) }
    {
        let place = self.place_of(alloc, name)?;
        self.entries[place].exported = true;
        Ok(())
    }

    /// The names in the order of their symbols: local ones first.
    pub fn in_order(self, alloc: Global) -> Result<Names, AllocError>
        ensures { IfOk result (λ names. names ≡ in_order self) }
    {
        let mut names = Names::new(alloc);
        let mut seen = Vec::new(alloc);
        for entry in self.entries {
            if entry.is_local() {
                names.push(alloc, entry)?;
            } else {
                seen.push(entry)?;
            }
        }
        for entry in seen {
            names.push(alloc, entry)?;
        }
        Ok(names)
    }

    /// The symbols of the names, in the names' order.
    pub fn into_symbols(self, alloc: Global) -> Result<Symbols, AllocError>
        ensures { IfOk result (λ symbols. symbols ≡ map symbol_of self) }
    {
        let mut symbols = Vec::with_capacity(alloc, self.entries.len())?;
        for entry in self.entries {
            symbols.push(entry.into_symbol())?;
        }
        Ok(Symbols::from_vec(symbols))
    }
}

impl Entry {
    ghost use Rattle.rv_names.specs.Names.{defined, is_local, symbol_of};

    // Its first definition stands.
    fn define(&mut self, definition: Definition)
        ensures { self.new ≡ defined definition self.old }
    {
        if self.definition.is_none() {
            self.definition = Some(definition);
        }
    }

    /// Whether the name is defined and not exported.
    pub fn is_local(&self) -> bool
        ensures { result ≡ is_local self.now }
    {
        self.definition.is_some() && !self.exported
    }

    fn into_symbol(self) -> Symbol
        ensures { result ≡ symbol_of self }
    {
        let binding = if self.is_local() {
            Binding::Local
        } else {
            Binding::Global
        };
        Symbol {
            name: self.name,
            binding,
            place: place_of(self.definition),
            value: value_of(self.definition),
        }
    }
}
