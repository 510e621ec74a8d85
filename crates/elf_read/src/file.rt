ghost use Rattle.std.specs.Prelude.{◌≡◌, ◌<◌, ◌≤◌, ◌^◌, ℕ, nat_eq, length, take, drop, IfOk, IfErr};
ghost use Rattle.elf_read.specs.Places.{first_where};
ghost use Rattle.elf_read.specs.Header.{HasShape, HasTable, section_count};
ghost use Rattle.elf_read.specs.Fault.{IsFirstFault, HasNames};
ghost use Rattle.cfi_word.specs.declared.limits.TheConstants.{MAX_SECTIONS};
ghost use Rattle.elf_read.specs.Section.{section_at, section_names, contents, has_name, is_loaded, is_text, is_data, is_record_section, first_named};

use crate::fault::ElfFault;
use crate::section::{self, ALLOC, EH_FRAME, EXECINSTR, NOBITS, PROGBITS, Section};
use crate::word::{rest, u16_at};
use std::marker::Model;

/// A file whose section headers and section names can be read. Contracts see its bytes.
#[derive(Drop)]
pub struct File<'a> {
    bytes: &'a [u8],
    names: &'a [u8],
}

impl<'a> Model for File<'a> {
    ghost use Rattle.std.specs.Prelude.{◌≡◌, ℕ, List};

    ghost Value = { List ℕ };

    ghost use Rattle.elf_read.specs.Fault.{HasNames};
    ghost use Rattle.elf_read.specs.Section.{section_names};

    ghost view = { λ f. f.bytes.now };

    ghost invariant = { λ f. HasNames f.bytes.now × (f.names.now ≡ section_names f.bytes.now) };
}

/// The bytes of a file from `offset` on, at most `size` of them.
fn part(bytes: &[u8], offset: usize, size: usize) -> &[u8]
    ensures same { result.now ≡ take size (drop offset bytes.now) }
    ensures len { length result.now ≤ size }
{
    let from = rest(bytes, offset);
    if size < from.len() {
        from.split_at(size).0
    } else {
        from
    }
}

/// The contents of section `k`, as far as they are in the file.
#[tactic(auto, unfolding(crate::specs::Section::contents))]
fn contents_of(bytes: &[u8], k: usize) -> &[u8]
    requires table { HasTable bytes.now }
    requires within { k < section_count bytes.now }
    ensures same { result.now ≡ contents bytes.now k }
    ensures small { length result.now < 2 ^ 32 }
{
    let section = section::section_at(bytes, k);
    part(bytes, section.offset as usize, section.size as usize)
}

impl<'a> File<'a> {
    /// The file that the bytes are, if its section names are in it.
    pub fn new(bytes: &'a [u8]) -> Result<File<'a>, ElfFault>
        requires shape { HasShape bytes.now }
        ensures ok { IfOk result (λ file. (file ≡ bytes.now) × HasNames bytes.now) }
        ensures fault { IfErr result (IsFirstFault bytes.now) }
    {
        let number = usize::from(u16_at(bytes, 50));
        let section = section::section_at(bytes, number);
        if section.offset as usize + section.size as usize > bytes.len() {
            return Err(ElfFault::Short(section.offset));
        }
        let names = contents_of(bytes, number);
        Ok(File { bytes, names })
    }

    /// How many bytes the file has.
    pub fn len(&self) -> usize
        ensures { result ≡ length self.now }
    {
        self.bytes.len()
    }

    /// How many sections the file has.
    pub fn count(&self) -> usize
        ensures same { result ≡ section_count self.now }
        ensures few { result ≤ MAX_SECTIONS }
    {
        usize::from(u16_at(self.bytes, 48))
    }

    /// The header of section `k`.
    pub fn section(&self, k: usize) -> Section
        requires within { k < section_count self.now }
        ensures { result ≡ section_at self.now k }
    {
        section::section_at(self.bytes, k)
    }

    /// The contents of section `k`, as far as they are in the file.
    pub fn contents(&self, k: usize) -> &'a [u8]
        requires within { k < section_count self.now }
        ensures same { result.now ≡ contents self.now k }
        ensures small { length result.now < 2 ^ 32 }
    {
        contents_of(self.bytes, k)
    }

    /// The table of section names.
    pub fn names(&self) -> &'a [u8]
        ensures { result.now ≡ section_names self.now }
    {
        self.names
    }

    /// Whether section `k` has the name, which is given with its end.
    #[tactic(auto, unfolding(crate::specs::Section::has_name))]
    pub fn has_name(&self, k: usize, name: &[u8]) -> bool
        requires within { k < section_count self.now }
        ensures { result ≡ has_name self.now k name.now }
    {
        let start = self.section(k).name as usize;
        rest(self.names, start).starts_with(name)
    }

    /// Whether section `k` is loaded.
    #[tactic(auto, unfolding(crate::specs::Section::is_loaded))]
    pub fn is_loaded(&self, k: usize) -> bool
        requires within { k < section_count self.now }
        ensures { result ≡ is_loaded self.now k }
    {
        let section = self.section(k);
        (section.kind == PROGBITS || section.kind == NOBITS)
            && section.flags & ALLOC != 0
            && !self.has_name(k, EH_FRAME)
    }

    /// Whether section `k` is kept text.
    #[tactic(auto, unfolding(crate::specs::Section::is_text))]
    pub fn is_text(&self, k: usize) -> bool
        requires within { k < section_count self.now }
        ensures { result ≡ is_text self.now k }
    {
        self.is_loaded(k) && self.section(k).flags & EXECINSTR != 0
    }

    /// Whether section `k` is kept data.
    #[tactic(auto, unfolding(crate::specs::Section::is_data))]
    pub fn is_data(&self, k: usize) -> bool
        requires within { k < section_count self.now }
        ensures { result ≡ is_data self.now k }
    {
        self.is_loaded(k) && self.section(k).flags & EXECINSTR == 0
    }

    /// Whether section `k` is that of types or of records, by its name, which is given with its end.
    #[tactic(auto, unfolding(crate::specs::Section::is_record_section))]
    pub fn is_record_section(&self, k: usize, name: &[u8]) -> bool
        requires within { k < section_count self.now }
        ensures { result ≡ is_record_section self.now name.now k }
    {
        let section = self.section(k);
        section.kind == PROGBITS && section.flags & ALLOC == 0 && self.has_name(k, name)
    }

    /// The number of the first section of this type, or the number of sections.
    pub fn first_of_kind(&self, kind: u32) -> usize
        ensures { result ≡
            first_where (λ k. nat_eq (section_at self.now k).kind kind) (section_count self.now) }
    {
        let count = self.count();
        for k in 0..count {
            if self.section(k).kind == kind {
                return k;
            }
        }
        count
    }

    /// The number of the first section of types or of records, by its name, or the number of sections.
    pub fn first_record(&self, name: &[u8]) -> usize
        ensures { result ≡
            first_where (is_record_section self.now name.now) (section_count self.now) }
    {
        let count = self.count();
        for k in 0..count {
            if self.is_record_section(k, name) {
                return k;
            }
        }
        count
    }

    /// The number of the first section of this name, or the number of sections.
    pub fn first_named(&self, name: &[u8]) -> usize
        ensures { result ≡ first_named self.now name.now }
    {
        let count = self.count();
        for k in 0..count {
            if self.has_name(k, name) {
                return k;
            }
        }
        count
    }
}
