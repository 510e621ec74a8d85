ghost use Rattle.std.specs.Prelude.{◌≡◌, IfOk};
ghost use Rattle.elf_write.specs.Part.{parts_of, section_name, kind_of, flags_of, alignment_of, entry_size_of};

use cfi_word::map::DATA_ALIGNMENT;
use elf_read::relocation::RELA_SIZE;
use elf_read::{
    ALLOC, CFI_RECORDS, CFI_TYPES, EXECINSTR, PROGBITS, RELA, STRTAB, SYMBOL_SIZE, SYMTAB,
};
use std::alloc::{AllocError, Global};

/// The flag of what the program may write.
pub const WRITE: u32 = 1;

/// The name of the text, with its end, as are those below.
pub const TEXT: &[u8; 6] = b".text\0";
/// The name of the data.
pub const DATA: &[u8; 6] = b".data\0";
/// The name of the relocations of the text.
pub const TEXT_RELAS: &[u8; 11] = b".rela.text\0";
/// The name of the relocations of the data.
pub const DATA_RELAS: &[u8; 11] = b".rela.data\0";
/// The name of the symbol table.
pub const SYMBOLS: &[u8; 8] = b".symtab\0";
/// The name of the names of symbols.
pub const SYMBOL_NAMES: &[u8; 8] = b".strtab\0";
/// The name of the names of sections.
pub const SECTION_NAMES: &[u8; 10] = b".shstrtab\0";

/// A section of a written file.
#[derive(Clone, Copy, Debug)]
pub enum Part {
    /// Section 0, which is none.
    Null,
    /// The text.
    Text,
    /// The data.
    Data,
    /// The types.
    Types,
    /// The records.
    Records,
    /// The relocations of the text.
    TextRelas,
    /// The relocations of the data.
    DataRelas,
    /// The symbol table.
    Symbols,
    /// The names of symbols.
    SymbolNames,
    /// The names of sections.
    SectionNames,
}

/// The sections of a file in their order, with those of types and of records where they are there.
pub fn parts_of(alloc: Global, types: bool, records: bool) -> Result<Vec<Part>, AllocError>
    ensures { IfOk result (λ parts. parts.items ≡ parts_of types records) }
{
    let mut parts = Vec::new(alloc);
    parts.extend_from_slice(&[Part::Null, Part::Text, Part::Data])?;
    if types {
        parts.push(Part::Types)?;
    }
    if records {
        parts.push(Part::Records)?;
    }
    parts.extend_from_slice(&[Part::TextRelas, Part::DataRelas])?;
    parts.extend_from_slice(&[Part::Symbols, Part::SymbolNames, Part::SectionNames])?;
    Ok(parts)
}

/// The name of a section, with its end.
pub fn section_name(part: Part) -> &'static [u8]
    ensures { result.now ≡ section_name part }
{
    match part {
        Part::Null => &[0],
        Part::Text => TEXT,
        Part::Data => DATA,
        Part::Types => CFI_TYPES,
        Part::Records => CFI_RECORDS,
        Part::TextRelas => TEXT_RELAS,
        Part::DataRelas => DATA_RELAS,
        Part::Symbols => SYMBOLS,
        Part::SymbolNames => SYMBOL_NAMES,
        Part::SectionNames => SECTION_NAMES,
    }
}

/// sh_type of a section.
pub fn kind_of(part: Part) -> u32
    ensures { result ≡ kind_of part }
{
    match part {
        Part::Null => 0,
        Part::Text | Part::Data | Part::Types | Part::Records => PROGBITS,
        Part::TextRelas | Part::DataRelas => RELA,
        Part::Symbols => SYMTAB,
        Part::SymbolNames | Part::SectionNames => STRTAB,
    }
}

/// sh_flags of a section.
pub fn flags_of(part: Part) -> u32
    ensures { result ≡ flags_of part }
{
    match part {
        Part::Text => ALLOC + EXECINSTR,
        Part::Data => WRITE + ALLOC,
        _ => 0,
    }
}

/// sh_addralign of a section.
pub fn alignment_of(part: Part) -> u32
    ensures { result ≡ alignment_of part }
{
    match part {
        Part::Null => 0,
        Part::Data => DATA_ALIGNMENT as u32,
        Part::SymbolNames | Part::SectionNames => 1,
        _ => 4,
    }
}

/// sh_entsize of a section.
pub fn entry_size_of(part: Part) -> u32
    ensures { result ≡ entry_size_of part }
{
    match part {
        Part::TextRelas | Part::DataRelas => RELA_SIZE as u32,
        Part::Symbols => SYMBOL_SIZE as u32,
        _ => 0,
    }
}
