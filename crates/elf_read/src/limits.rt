ghost use Rattle.std.specs.Prelude.{◌≡◌, ◌<◌, ◌≤◌, ◌*◌, ◌^◌, length, IfOk, IfErr};
ghost use Rattle.elf_read.specs.Header.{section_count};
ghost use Rattle.elf_read.specs.Object.{symbol_number, kept_count};
ghost use Rattle.elf_read.specs.Layout.{IsLayout, IsNumbering};
ghost use Rattle.elf_read.specs.inner.Targets.{kept_in};
ghost use Rattle.elf_read.specs.declared.relocation.TheConstants.{RELA_SIZE};
ghost use Rattle.elf_read.specs.Fault.{IsFirstFault, HasPlaces, IsSound, kept_symbols, kept_relocs};

use crate::fault::{ElfFault, Limit};
use crate::layout::Layout;
use crate::rela::{entries_of, entry_in, kind_of, rela_count};
use crate::relocation::is_dropped;
use crate::symbol_table::SymbolTable;
use cfi_word::limits::{MAX_DATA, MAX_RELOCS, MAX_SYMBOLS, MAX_WORDS};
use std::alloc::{AllocError, Global};

/// The number of each symbol among those that are kept, and how many those are.
#[tactic(auto, unfolding(crate::specs::Object::symbol_number))]
pub fn number_symbols(alloc: Global, table: &SymbolTable<'_>) -> Result<Vec<usize>, AllocError>
    ensures { IfOk result (λ numbers. IsNumbering table.now numbers.items) }
{
    let mut numbers = Vec::new(alloc);
    let mut kept = 0usize;
    for k in 0..table.count() {
        numbers.push(kept)?;
        kept += usize::from(!table.is_left_out(k));
    }
    numbers.push(kept)?;
    Ok(numbers)
}

/// How many of `count` entries are kept.
fn kept_of(entries: &[u8], count: usize) -> usize
    requires { RELA_SIZE * count ≤ length entries.now }
    ensures same { result ≡ kept_in entries.now count }
    ensures few { result ≤ count }
{
    let mut kept = 0usize;
    for i in 0..count {
        kept += usize::from(!is_dropped(kind_of(entry_in(entries, i))));
    }
    kept
}

/// How many relocations of section `s` are kept.
#[tactic(auto, unfolding(crate::specs::Object::kept_count, crate::specs::Relocation::rela_at))]
fn kept_count(table: &SymbolTable<'_>, s: usize) -> usize
    requires within { s < section_count table.now }
    ensures same { result ≡ kept_count table.now s }
    ensures small { result < 2 ^ 32 }
{
    let entries = entries_of(table, s);
    kept_of(entries, rela_count(table, s))
}

/// How many relocations are kept.
fn kept_relocs(table: &SymbolTable<'_>) -> usize
    ensures { result ≡ kept_relocs table.now }
{
    let mut kept = 0;
    for s in 0..table.section_count() {
        kept += kept_count(table, s);
    }
    kept
}

/// Whether the object is within the limits.
pub fn check_limits(
    table: &SymbolTable<'_>,
    symbols: usize,
    layout: &Layout,
) -> Result<(), ElfFault>
    requires places { HasPlaces table.now }
    requires symbols { symbols ≡ kept_symbols table.now }
    requires layout { IsLayout table.now layout.now }
    ensures ok { IfOk result (λ _. IsSound table.now) }
    ensures fault { IfErr result (IsFirstFault table.now) }
{
    if symbols > MAX_SYMBOLS {
        return Err(ElfFault::TooMany(Limit::Symbols));
    }
    let relocs = kept_relocs(table);
    if relocs > MAX_RELOCS {
        return Err(ElfFault::TooMany(Limit::Relocs));
    }
    if layout.text_size / 4 > MAX_WORDS {
        return Err(ElfFault::TooMany(Limit::Words));
    }
    if layout.data_size > MAX_DATA {
        return Err(ElfFault::TooMany(Limit::Data));
    }
    Ok(())
}
