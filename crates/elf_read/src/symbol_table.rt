ghost use Rattle.std.specs.Prelude.{◌≡◌, ◌<◌, ◌≤◌, ◌^◌, ◌%◌, ◌/◌, ◌&&◌, ◌==◌, ℕ, List, length, IfSome, is_some};
ghost use Rattle.elf_read.specs.Header.{section_count};
ghost use Rattle.cfi_word.specs.declared.limits.TheConstants.{MAX_SECTIONS};
ghost use Rattle.elf_read.specs.Section.{section_at, contents, is_loaded, is_text, is_data, is_record_section};
ghost use Rattle.elf_read.specs.Places.{first_where};
ghost use Rattle.elf_read.specs.Fault.{HasSections};
ghost use Rattle.elf_read.specs.Symbol.{symbol_bytes, symbol_names, symbol_count, symbol_at, type_of, binding_of, stored_name, name_of, is_well_named, is_exported_entry, is_in_section, is_left_out, is_definition_at};

use crate::name::ended;
use crate::section::Section;
use crate::sections::Sections;
use crate::symbol::{Entry, FILE, GLOBAL, SECTION, SYMBOL_SIZE, UNDEFINED, WEAK};
use crate::word::{rest, u16_at, u32_at};
use cfi_word::limits::MAX_NAME;
use std::marker::Model;
use std::str;

/// The first symbol table of a file whose sections are good. Contracts see the file's bytes.
#[derive(Drop)]
pub struct SymbolTable<'a> {
    pub sections: Sections<'a>,
    bytes: &'a [u8],
    names: &'a [u8],
}

impl<'a> Model for SymbolTable<'a> {
    ghost use Rattle.std.specs.Prelude.{◌≡◌, ◌<◌, ◌^◌, ℕ, List, length};

    ghost Value = { List ℕ };

    ghost use Rattle.elf_read.specs.Fault.{HasSections};
    ghost use Rattle.elf_read.specs.Symbol.{symbol_bytes, symbol_names};

    ghost view = { λ s. s.sections };

    ghost invariant = { λ s. HasSections s.sections
        × (s.bytes.now ≡ symbol_bytes s.sections)
        × (s.names.now ≡ symbol_names s.sections)
        × (length s.bytes.now < 2 ^ 32) };
}

/// The type of a symbol.
pub fn type_of(entry: Entry) -> u8
    ensures { result ≡ type_of entry }
{
    entry.info % 16
}

/// The binding of a symbol.
pub fn binding_of(entry: Entry) -> u8
    ensures { result ≡ binding_of entry }
{
    entry.info / 16
}

/// Whether a symbol is global or weak.
pub fn is_exported_entry(entry: Entry) -> bool
    ensures { result ≡ is_exported_entry entry }
{
    let binding = binding_of(entry);
    binding == GLOBAL || binding == WEAK
}

impl<'a> SymbolTable<'a> {
    /// The first symbol table.
    #[tactic(auto, unfolding(crate::specs::Symbol::symbol_bytes, crate::specs::Symbol::symbol_names))]
    pub fn new(sections: Sections<'a>) -> SymbolTable<'a>
        requires sections { HasSections sections }
        ensures { result ≡ sections.entry }
    {
        if !sections.has_symbols() {
            return SymbolTable {
                sections,
                bytes: &[],
                names: &[],
            };
        }
        let table = sections.table;
        let link = sections.file.section(table).link as usize;
        let bytes = sections.file.contents(table);
        let names = sections.file.contents(link);
        SymbolTable {
            sections,
            bytes,
            names,
        }
    }

    /// How many sections there are.
    pub fn section_count(&self) -> usize
        ensures same { result ≡ section_count self.now }
        ensures few { result ≤ MAX_SECTIONS }
    {
        self.sections.count()
    }

    /// The header of section `k`.
    pub fn section(&self, k: usize) -> Section
        requires within { k < section_count self.now }
        ensures { result ≡ section_at self.now k }
    {
        self.sections.file.section(k)
    }

    /// The number of the first section of types or of records, by its name, or the number of sections.
    pub fn first_record(&self, name: &[u8]) -> usize
        ensures { result ≡
            first_where (is_record_section self.now name.now) (section_count self.now) }
    {
        self.sections.file.first_record(name)
    }

    /// The contents of section `k`.
    pub fn contents(&self, k: usize) -> &'a [u8]
        requires within { k < section_count self.now }
        ensures { result.now ≡ contents self.now k }
    {
        self.sections.file.contents(k)
    }

    /// Whether section `k` is loaded.
    pub fn is_loaded(&self, k: usize) -> bool
        requires within { k < section_count self.now }
        ensures { result ≡ is_loaded self.now k }
    {
        self.sections.file.is_loaded(k)
    }

    /// Whether section `k` is kept text.
    pub fn is_text(&self, k: usize) -> bool
        requires within { k < section_count self.now }
        ensures { result ≡ is_text self.now k }
    {
        self.sections.file.is_text(k)
    }

    /// Whether section `k` is kept data.
    pub fn is_data(&self, k: usize) -> bool
        requires within { k < section_count self.now }
        ensures { result ≡ is_data self.now k }
    {
        self.sections.file.is_data(k)
    }

    /// How many symbols there are.
    pub fn count(&self) -> usize
        ensures same { result ≡ symbol_count self.now }
        ensures small { result < 2 ^ 28 }
    {
        self.bytes.len() / SYMBOL_SIZE
    }

    /// Symbol `k`.
    #[tactic(auto, unfolding(crate::specs::Symbol::symbol_at))]
    pub fn symbol(&self, k: usize) -> Entry
        requires within { k < symbol_count self.now }
        ensures { result ≡ symbol_at self.now k }
    {
        let bytes = self.bytes;
        let at = SYMBOL_SIZE * k;
        Entry {
            name: u32_at(bytes, at),
            value: u32_at(bytes, at + 4),
            info: bytes[at + 12],
            section: u16_at(bytes, at + 14),
        }
    }

    /// The name of symbol `k`, if it is ended, not too long, and UTF-8.
    #[tactic(auto, unfolding(crate::specs::Symbol::is_well_named, crate::specs::Symbol::stored_name, crate::specs::Symbol::name_of))]
    pub fn name(&self, k: usize) -> Option<&'a str>
        requires within { k < symbol_count self.now }
        ensures some { IfSome result (λ name. name.now ≡ name_of self.now k) }
        ensures cases { is_some result ≡ is_well_named self.now k }
    {
        let entry = self.symbol(k);
        let stored = ended(rest(self.names, entry.name as usize))?;
        if stored.len() > MAX_NAME {
            return None;
        }
        let Ok(text) = str::from_utf8(stored) else {
            return None;
        };
        Some(if type_of(entry) == SECTION { "" } else { text })
    }

    /// Whether symbol `k` lies in a section.
    pub fn is_in_section(&self, k: usize) -> bool
        requires within { k < symbol_count self.now }
        ensures { result ≡ is_in_section self.now (symbol_at self.now k) }
    {
        let entry = self.symbol(k);
        entry.section != UNDEFINED && (entry.section as usize) < self.section_count()
    }

    /// Whether symbol `k` is left out.
    #[tactic(auto, unfolding(crate::specs::Symbol::is_left_out))]
    pub fn is_left_out(&self, k: usize) -> bool
        requires within { k < symbol_count self.now }
        ensures { result ≡ is_left_out self.now k }
    {
        let entry = self.symbol(k);
        k == 0
            || type_of(entry) == FILE
            || (self.is_in_section(k) && !self.is_loaded(entry.section as usize))
    }

    /// Whether symbol `k` defines a global or weak name.
    #[tactic(auto, unfolding(crate::specs::Symbol::is_definition_at))]
    pub fn is_definition_at(&self, k: usize) -> bool
        requires within { k < symbol_count self.now }
        ensures { result ≡ is_definition_at self.now k }
    {
        let entry = self.symbol(k);
        is_exported_entry(entry) && entry.section != UNDEFINED
    }
}
