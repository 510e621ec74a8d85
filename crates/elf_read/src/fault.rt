ghost use Rattle.std.specs.Prelude.{◌≡◌};
ghost use Rattle.elf_read.specs.declared.fault.ElfFault.TheVariants.{Memory};

use std::alloc::{AllocError, AllocFailed};
use thiserror::Error;

/// A limit on what one object may have.
#[derive(Clone, Copy, Debug, PartialEq, Eq)]
pub enum Limit {
    /// Sections of the file.
    Sections,
    /// Symbols that are kept.
    Symbols,
    /// Relocations that are kept.
    Relocs,
    /// Words of the joined text.
    Words,
    /// Bytes of the joined data.
    Data,
    /// Nodes of the type table.
    Types,
    /// Function records.
    Functions,
    /// Branch records.
    Branches,
}

/// Why bytes are no object: the first fault, in the order of the passes over the file.
#[derive(Clone, Copy, Debug, PartialEq, Eq, Error)]
pub enum ElfFault {
    /// What begins at this offset passes the file's end.
    #[error("what begins at offset {0} passes the end of the file")]
    Short(u32),
    /// The file is no ELF32 file of little-endian words.
    #[error("not a little-endian ELF32 file")]
    NotElf32,
    /// The machine is not RISC-V.
    #[error("not for RISC-V")]
    NotRiscv,
    /// The file is not relocatable.
    #[error("not a relocatable file")]
    NotRelocatable,
    /// The section of this number, from 0, breaks a rule.
    #[error("section {0} is bad")]
    BadSection(u32),
    /// The symbol of this number, from 0, breaks a rule.
    #[error("symbol {0} is bad")]
    BadSymbol(u32),
    /// The relocation of this number, from 0, breaks a rule.
    #[error("relocation {0} is bad")]
    BadReloc(u32),
    /// The relocation of this number, from 0, has this kind, which is not known.
    #[error("relocation {0} has the unknown kind {1}")]
    UnknownReloc(u32, u32),
    /// The symbol of this number, from 0, is a common block.
    #[error("symbol {0} is a common block")]
    Common(u32),
    /// The object passes this limit.
    #[error("the limit on {0:?} is passed")]
    TooMany(Limit),
    /// Memory ran out.
    #[error("out of memory")]
    Memory,
}

impl From<AllocError> for ElfFault {
    ghost from_gives = { λ _ e. e ≡ Memory };

    fn from(_error: AllocError) -> ElfFault {
        ElfFault::Memory
    }
}

impl<T: Drop> From<AllocFailed<T>> for ElfFault {
    ghost from_gives = { λ _ e. e ≡ Memory };

    fn from(_error: AllocFailed<T>) -> ElfFault {
        ElfFault::Memory
    }
}
