ghost use Rattle.std.specs.Prelude.{◌≡◌, ◌<◌, ◌≤◌, ℕ, List, IfOk, IfErr};
ghost use Rattle.elf_read.specs.Header.{section_count};
ghost use Rattle.cfi_word.specs.declared.limits.TheConstants.{MAX_SECTIONS};
ghost use Rattle.elf_read.specs.Section.{is_types, is_records, has_symbols, has_kind, is_symbol_names, is_rela, is_kept, is_short, symbol_table, first_named};
ghost use Rattle.elf_read.specs.Fault.{IsFirstFault, HasNames, HasContents};

use crate::fault::ElfFault;
use crate::file::File;
use crate::section::{CFI_RECORDS, CFI_TYPES, NOBITS, RELA, STRTAB, SYMTAB};
use std::marker::Model;

/// The sections of a file, with the numbers of the first ones that others are told by. Contracts see the file's bytes.
#[derive(Drop)]
pub struct Sections<'a> {
    pub file: File<'a>,
    pub table: usize,
    pub types: usize,
    pub records: usize,
}

impl<'a> Model for Sections<'a> {
    ghost use Rattle.std.specs.Prelude.{◌≡◌, ℕ, List};

    ghost Value = { List ℕ };

    ghost use Rattle.elf_read.specs.Section.{symbol_table, first_named};
    ghost use Rattle.elf_read.specs.declared.section.TheConstants.{CFI_TYPES, CFI_RECORDS};

    ghost view = { λ s. s.file };

    ghost invariant = { λ s. (s.table ≡ symbol_table s.file)
        × (s.types ≡ first_named s.file CFI_TYPES.now)
        × (s.records ≡ first_named s.file CFI_RECORDS.now) };
}

impl<'a> Sections<'a> {
    /// The sections of a file.
    pub fn new(file: File<'a>) -> Sections<'a>
        ensures { result ≡ file.entry }
    {
        let table = file.first_of_kind(SYMTAB);
        let types = file.first_named(CFI_TYPES);
        let records = file.first_named(CFI_RECORDS);
        Sections {
            file,
            table,
            types,
            records,
        }
    }

    /// How many sections there are.
    pub fn count(&self) -> usize
        ensures same { result ≡ section_count self.now }
        ensures few { result ≤ MAX_SECTIONS }
    {
        self.file.count()
    }

    /// Whether section `k` has types.
    pub fn is_types(&self, k: usize) -> bool
        requires within { k < section_count self.now }
        ensures { result ≡ is_types self.now k }
    {
        self.file.is_record_section(k, CFI_TYPES)
    }

    /// Whether section `k` has records.
    pub fn is_records(&self, k: usize) -> bool
        requires within { k < section_count self.now }
        ensures { result ≡ is_records self.now k }
    {
        self.file.is_record_section(k, CFI_RECORDS)
    }

    /// Whether there is a symbol table.
    pub fn has_symbols(&self) -> bool
        ensures { result ≡ has_symbols self.now }
    {
        self.table < self.file.count()
    }

    /// Whether section `k` is there and has this type.
    pub fn has_kind(&self, kind: u32, k: usize) -> bool
        ensures { result ≡ has_kind self.now kind k }
    {
        k < self.file.count() && self.file.section(k).kind == kind
    }

    /// Whether section `k` has the names of the symbols of the first symbol table.
    #[tactic(auto, unfolding(crate::specs::Section::is_symbol_names))]
    pub fn is_symbol_names(&self, k: usize) -> bool
        ensures { result ≡ is_symbol_names self.now k }
    {
        self.has_symbols()
            && self.file.section(self.table).link as usize == k
            && self.has_kind(STRTAB, k)
    }

    /// Whether section `k` has relocations of a loaded section.
    #[tactic(auto, unfolding(crate::specs::Section::is_rela))]
    pub fn is_rela(&self, k: usize) -> bool
        requires within { k < section_count self.now }
        ensures { result ≡ is_rela self.now k }
    {
        let section = self.file.section(k);
        let target = section.info as usize;
        section.kind == RELA && target < self.file.count() && self.file.is_loaded(target)
    }

    /// Whether section `k` is kept.
    #[tactic(auto, unfolding(crate::specs::Section::is_kept))]
    pub fn is_kept(&self, k: usize) -> bool
        requires within { k < section_count self.now }
        ensures { result ≡ is_kept self.now k }
    {
        self.file.is_loaded(k)
            || self.is_types(k)
            || self.is_records(k)
            || k == self.table
            || self.is_symbol_names(k)
            || self.is_rela(k)
    }

    /// Whether the contents of kept section `k` pass the file's end.
    #[tactic(auto, unfolding(crate::specs::Section::is_short))]
    pub fn is_short(&self, k: usize) -> bool
        requires within { k < section_count self.now }
        ensures { result ≡ is_short self.now k }
    {
        let section = self.file.section(k);
        self.is_kept(k)
            && section.kind != NOBITS
            && section.offset as usize + section.size as usize > self.file.len()
    }

    /// Whether the contents of all kept sections are in the file.
    pub fn check_contents(&self) -> Result<(), ElfFault>
        requires names { HasNames self.now }
        ensures ok { IfOk result (λ _. HasContents self.now) }
        ensures fault { IfErr result (IsFirstFault self.now) }
    {
        for k in 0..self.count() {
            if self.is_short(k) {
                return Err(ElfFault::Short(self.file.section(k).offset));
            }
        }
        Ok(())
    }
}
