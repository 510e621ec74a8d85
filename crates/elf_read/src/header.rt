ghost use Rattle.std.specs.Prelude.{IfOk, IfErr};
ghost use Rattle.elf_read.specs.Header.{IsRelocatable, HasTable, HasShape};
ghost use Rattle.elf_read.specs.Fault.{IsFirstFault};

use crate::fault::{ElfFault, Limit};
use crate::word::{u16_at, u32_at};
use cfi_word::limits::MAX_SECTIONS;

/// Bytes of the header of an ELF32 file.
pub const HEADER_SIZE: usize = 52;

/// Bytes of an entry of the section header table.
pub const ENTRY_SIZE: usize = 40;

/// e_machine of RISC-V.
pub const MACHINE: u16 = 243;

/// e_type of a relocatable file.
pub const RELOCATABLE: u16 = 1;

/// ELF's four bytes, the class of 32 bits, the low byte first, and version 1.
pub const IDENT: [u8; 7] = [0x7f, b'E', b'L', b'F', 1, 1, 1];

/// Whether the header is that of a relocatable ELF32 file for RISC-V.
pub fn check_header(bytes: &[u8]) -> Result<(), ElfFault>
    ensures ok { IfOk result (λ _. IsRelocatable bytes.now) }
    ensures fault { IfErr result (IsFirstFault bytes.now) }
{
    if bytes.len() < HEADER_SIZE {
        return Err(ElfFault::Short(0));
    }
    if !bytes.starts_with(&IDENT) {
        return Err(ElfFault::NotElf32);
    }
    let machine = u16_at(bytes, 18);
    if machine != MACHINE {
        return Err(ElfFault::NotRiscv);
    }
    let kind = u16_at(bytes, 16);
    if kind != RELOCATABLE {
        return Err(ElfFault::NotRelocatable);
    }
    Ok(())
}

/// Whether the section header table is in the file.
pub fn check_table(bytes: &[u8]) -> Result<(), ElfFault>
    requires header { IsRelocatable bytes.now }
    ensures ok { IfOk result (λ _. HasTable bytes.now) }
    ensures fault { IfErr result (IsFirstFault bytes.now) }
{
    let count = usize::from(u16_at(bytes, 48));
    if count > MAX_SECTIONS {
        return Err(ElfFault::TooMany(Limit::Sections));
    }
    let table = u32_at(bytes, 32);
    if table as usize + ENTRY_SIZE * count > bytes.len() {
        return Err(ElfFault::Short(table));
    }
    Ok(())
}

/// Whether the table has entries of the stated size, and among them the section of names.
pub fn check_shape(bytes: &[u8]) -> Result<(), ElfFault>
    requires table { HasTable bytes.now }
    ensures ok { IfOk result (λ _. HasShape bytes.now) }
    ensures fault { IfErr result (IsFirstFault bytes.now) }
{
    let size = usize::from(u16_at(bytes, 46));
    if size != ENTRY_SIZE {
        return Err(ElfFault::BadSection(0));
    }
    let count = u16_at(bytes, 48);
    let names = u16_at(bytes, 50);
    if names >= count {
        return Err(ElfFault::BadSection(0));
    }
    Ok(())
}
