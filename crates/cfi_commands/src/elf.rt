ghost use Rattle.std.specs.Prelude.{◌≡◌, ◌++◌, OnOk, codes, string_bytes};
ghost use Rattle.cfi_commands.specs.Elf.{limit_text, elf_text};
ghost use Rattle.cfi_commands.specs.inner.Words.{numbers_text};

use crate::words::{Numbers, put_words};
use elf_read::{ElfFault, Limit};
use std::alloc::AllocError;

/// The name of the fault that a limit is passed, and the limit's name.
pub fn limit_words(limit: Limit) -> &'static str
    ensures { result.now ≡ codes "TooMany " ++ limit_text limit }
{
    match limit {
        Limit::Sections => "TooMany Sections",
        Limit::Symbols => "TooMany Symbols",
        Limit::Relocs => "TooMany Relocs",
        Limit::Words => "TooMany Words",
        Limit::Data => "TooMany Data",
        Limit::Types => "TooMany Types",
        Limit::Functions => "TooMany Functions",
        Limit::Branches => "TooMany Branches",
    }
}

// The name and the fields of an object's fault.
fn elf_words(fault: ElfFault) -> (&'static str, Numbers)
    ensures { elf_text fault ≡ result.0.now ++ numbers_text result.1 }
{
    match fault {
        ElfFault::Short(offset) => ("Short", Numbers::One(offset)),
        ElfFault::NotElf32 => ("NotElf32", Numbers::None),
        ElfFault::NotRiscv => ("NotRiscv", Numbers::None),
        ElfFault::NotRelocatable => ("NotRelocatable", Numbers::None),
        ElfFault::BadSection(section) => ("BadSection", Numbers::One(section)),
        ElfFault::BadSymbol(symbol) => ("BadSymbol", Numbers::One(symbol)),
        ElfFault::BadReloc(reloc) => ("BadReloc", Numbers::One(reloc)),
        ElfFault::UnknownReloc(reloc, kind) => ("UnknownReloc", Numbers::Two(reloc, kind)),
        ElfFault::Common(symbol) => ("Common", Numbers::One(symbol)),
        ElfFault::TooMany(limit) => (limit_words(limit), Numbers::None),
        ElfFault::Memory => ("Memory", Numbers::None),
    }
}

/// Appends the name and the fields of an object's fault.
pub fn put_elf(text: &mut String, fault: ElfFault) -> Result<(), AllocError>
    ensures { OnOk result (string_bytes text.new ≡ string_bytes text.old ++ elf_text fault) }
{
    let (name, numbers) = elf_words(fault);
    put_words(text, name, numbers)
}
