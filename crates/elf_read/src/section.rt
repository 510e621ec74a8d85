ghost use Rattle.std.specs.Prelude.{◌≡◌, ◌+◌, ◌<◌};
ghost use Rattle.elf_read.specs.Header.{HasTable, section_count};
ghost use Rattle.elf_read.specs.Section.{section_at};

use crate::header::ENTRY_SIZE;
use crate::word::u32_at;

/// A section of what the program defines.
pub const PROGBITS: u32 = 1;
/// A table of symbols.
pub const SYMTAB: u32 = 2;
/// A table of names.
pub const STRTAB: u32 = 3;
/// Relocations with addends.
pub const RELA: u32 = 4;
/// Zero bytes, which take no place in the file.
pub const NOBITS: u32 = 8;
/// Relocations without addends.
pub const REL: u32 = 9;
/// The least of the three types of arrays of functions.
pub const INIT_ARRAY: u32 = 14;
/// The greatest of them.
pub const PREINIT_ARRAY: u32 = 16;

/// The flag of what is in memory when the program runs.
pub const ALLOC: u32 = 2;
/// The flag of instructions.
pub const EXECINSTR: u32 = 4;
/// The flag of thread-local storage.
pub const TLS: u32 = 0x400;

/// The name of unwind tables, which are dropped, with its end.
pub const EH_FRAME: &[u8; 10] = b".eh_frame\0";
/// The name of the type section, with its end.
pub const CFI_TYPES: &[u8; 11] = b".cfi_types\0";
/// The name of the record section, with its end.
pub const CFI_RECORDS: &[u8; 13] = b".cfi_records\0";

/// The header of one section. Offsets and sizes are in bytes.
#[derive(Clone, Copy)]
pub struct Section {
    /// Where its name begins in the table of section names.
    pub name: u32,
    /// sh_type.
    pub kind: u32,
    /// sh_flags.
    pub flags: u32,
    /// Where its contents begin in the file.
    pub offset: u32,
    /// The size of its contents.
    pub size: u32,
    /// sh_link, the number of a section.
    pub link: u32,
    /// sh_info, for relocations the number of a section.
    pub info: u32,
    /// sh_addralign.
    pub alignment: u32,
}

/// The header of section `k`.
#[tactic(auto, unfolding(crate::specs::Section::section_at))]
pub fn section_at(bytes: &[u8], k: usize) -> Section
    requires table { HasTable bytes.now }
    requires within { k < section_count bytes.now }
    ensures { result ≡ section_at bytes.now k }
{
    let table = u32_at(bytes, 32) as usize;
    let at = table + ENTRY_SIZE * k;
    Section {
        name: u32_at(bytes, at),
        kind: u32_at(bytes, at + 4),
        flags: u32_at(bytes, at + 8),
        offset: u32_at(bytes, at + 16),
        size: u32_at(bytes, at + 20),
        link: u32_at(bytes, at + 24),
        info: u32_at(bytes, at + 28),
        alignment: u32_at(bytes, at + 32),
    }
}
