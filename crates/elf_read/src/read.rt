ghost use Rattle.std.specs.Prelude.{◌≡◌, ◌≤◌, ◌⊎◌, length, Ok, Err, IfOk, IfErr};
ghost use Rattle.elf_read.specs.declared.object.Object.{Object};
ghost use Rattle.elf_read.specs.declared.fault.ElfFault.TheVariants.{Memory};
ghost use Rattle.elf_read.specs.Header.{HasShape};
ghost use Rattle.elf_read.specs.Fault.{HasNames, HasPlaces, HasSections, IsFirstFault, IsObject};

use crate::bad_section::check_sections;
use crate::bad_symbol::{check_common, check_symbols};
use crate::fault::ElfFault;
use crate::file::File;
use crate::header::{check_header, check_shape, check_table};
use crate::keep::kept_object;
use crate::layout::layout_of;
use crate::limits::{check_limits, number_symbols};
use crate::object::Object;
use crate::rela::{MAX_FILE, check_kinds, check_relas};
use crate::sections::Sections;
use crate::symbol_table::SymbolTable;
use std::alloc::Global;

/// The object that the bytes of a relocatable file are.
///
/// `bytes` is a whole ELF32 file of at most `MAX_FILE` bytes. A fault is the first of the file, in the order of the
/// passes: header, section headers, contents, sections, symbols, relocations, kinds of relocations, common blocks,
/// limits. System V ELF; RISC-V ELF psABI.
pub fn read_object(alloc: Global, bytes: &[u8]) -> Result<Object, ElfFault>
    requires small { length bytes.now ≤ MAX_FILE }
    ensures ok { IfOk result (IsObject bytes.now) }
    ensures fault { IfErr result (IsFirstFault bytes.now) }
    ensures only { (object : Object) → IsObject bytes.now object →
        (result ≡ Ok object) ⊎ (result ≡ Err Memory) }
{
    pass_over(alloc, bytes)
}

// Whether the headers are those of a relocatable file for RISC-V, whose section headers are in it.
fn check_headers(bytes: &[u8]) -> Result<(), ElfFault>
    ensures ok { IfOk result (λ _. HasShape bytes.now) }
    ensures fault { IfErr result (IsFirstFault bytes.now) }
{
    check_header(bytes)?;
    check_table(bytes)?;
    check_shape(bytes)
}

// Whether no pass over the sections finds a fault.
fn check_all_sections(sections: &Sections<'_>) -> Result<(), ElfFault>
    requires names { HasNames sections.now }
    ensures ok { IfOk result (λ _. HasSections sections.now) }
    ensures fault { IfErr result (IsFirstFault sections.now) }
{
    sections.check_contents()?;
    check_sections(sections)
}

// The file, or the fault of its headers.
fn file_of(bytes: &[u8]) -> Result<File<'_>, ElfFault>
    ensures same { IfOk result (λ file. file ≡ bytes.now) }
    ensures ok { IfOk result (λ _. HasNames bytes.now) }
    ensures fault { IfErr result (IsFirstFault bytes.now) }
{
    check_headers(bytes)?;
    File::new(bytes)
}

// Whether no pass over the symbols and the relocations finds a fault.
fn check_entries(alloc: Global, table: &SymbolTable<'_>) -> Result<(), ElfFault>
    requires sections { HasSections table.now }
    requires small { length table.now ≤ MAX_FILE }
    ensures ok { IfOk result (λ _. HasPlaces table.now) }
    ensures fault { IfErr result (IsFirstFault table.now) }
{
    check_symbols(alloc, table)?;
    check_relas(alloc, table)?;
    check_kinds(table)?;
    check_common(table)
}

// What the file keeps, if it is within the limits.
fn keep_object(alloc: Global, table: &SymbolTable<'_>) -> Result<Object, ElfFault>
    requires places { HasPlaces table.now }
    ensures ok { IfOk result (IsObject table.now) }
    ensures fault { IfErr result (IsFirstFault table.now) }
{
    let numbers = number_symbols(alloc, table)?;
    let layout = layout_of(alloc, table)?;
    check_limits(table, numbers[table.count()], &layout)?;
    Ok(kept_object(alloc, table, &layout, numbers.as_slice())?)
}

/// The object, or the fault of the first pass over the file that has one.
fn pass_over(alloc: Global, bytes: &[u8]) -> Result<Object, ElfFault>
    requires small { length bytes.now ≤ MAX_FILE }
    ensures ok { IfOk result (IsObject bytes.now) }
    ensures fault { IfErr result (IsFirstFault bytes.now) }
{
    let sections = Sections::new(file_of(bytes)?);
    check_all_sections(&sections)?;
    let table = SymbolTable::new(sections);
    check_entries(alloc, &table)?;
    keep_object(alloc, &table)
}
