ghost use Rattle.std.specs.Prelude.{◌≡◌, ◌<◌, ◌≤◌, ◌*◌, ◌+◌, ◌^◌, not, nat_lt, length, IfOk, IfErr, IfSome, IfNone};
ghost use Rattle.elf_read.specs.Places.{IsFirst, IsNone};
ghost use Rattle.elf_read.specs.Header.{section_count};
ghost use Rattle.elf_read.specs.Section.{section_at, contents, is_text, is_data};
ghost use Rattle.elf_read.specs.Fault.{IsFirstFault, HasSymbols, HasRelas, HasKinds};
ghost use Rattle.elf_read.specs.declared.relocation.TheConstants.{RELA_SIZE};
ghost use Rattle.elf_read.specs.Relocation.{rela_count, rela_at, entry_in, symbol_index, kind_of, field_size, is_known, misfits, is_bad_rela_at, is_unknown_at};
ghost use Rattle.elf_read.specs.inner.Targets.{is_bad_symbol_number, breaks, AreLeftOut};

use crate::fault::ElfFault;
use crate::relocation::{RELA_SIZE, Rela, field_size, is_known, is_of_data, is_of_instruction};
use crate::symbol_table::SymbolTable;
use crate::word::u32_at;
use std::alloc::{AllocError, Global};

/// The greatest size of a file, in bytes, for which the numbers of all relocations are below 2 ^ 32.
pub const MAX_FILE: usize = 50_331_647;

/// The number of a relocation's symbol.
pub fn symbol_index(rela: Rela) -> usize
    ensures { result ≡ symbol_index rela }
{
    (rela.info / 256) as usize
}

/// The kind of a relocation.
pub fn kind_of(rela: Rela) -> u32
    ensures { result ≡ kind_of rela }
{
    rela.info % 256
}

/// How many relocations section `s` has.
#[tactic(auto, unfolding(crate::specs::Relocation::rela_count))]
pub fn rela_count(table: &SymbolTable<'_>, s: usize) -> usize
    requires within { s < section_count table.now }
    ensures same { result ≡ rela_count table.now s }
    ensures small { result < 2 ^ 32 }
{
    if !table.sections.is_rela(s) {
        return 0;
    }
    table.section(s).size as usize / RELA_SIZE
}

/// The number of the section that the relocations of section `s` change.
#[tactic(auto, unfolding(crate::specs::Relocation::rela_count, crate::specs::Section::is_rela))]
pub fn target_of(table: &SymbolTable<'_>, s: usize) -> usize
    requires within { s < section_count table.now }
    requires some { 0 < rela_count table.now s }
    ensures same { result ≡ (section_at table.now s).info }
    ensures there { result < section_count table.now }
{
    table.section(s).info as usize
}

/// The bytes of the relocations of section `s`.
pub fn entries_of<'a>(table: &SymbolTable<'a>, s: usize) -> &'a [u8]
    requires within { s < section_count table.now }
    ensures same { result.now ≡ contents table.now s }
    ensures whole { RELA_SIZE * rela_count table.now s ≤ length result.now }
{
    let _sections = &table.sections;
    table.contents(s)
}

/// Entry `i` of these bytes.
pub fn entry_in(entries: &[u8], i: usize) -> Rela
    requires { RELA_SIZE * i + RELA_SIZE ≤ length entries.now }
    ensures { result ≡ entry_in entries.now i }
{
    let at = RELA_SIZE * i;
    Rela {
        offset: u32_at(entries, at),
        info: u32_at(entries, at + 4),
        addend: u32_at(entries, at + 8),
    }
}

/// Entry `i` of section `s`.
#[tactic(auto, unfolding(crate::specs::Relocation::rela_at))]
pub fn rela_at(table: &SymbolTable<'_>, s: usize, i: usize) -> Rela
    requires within { s < section_count table.now }
    requires entry { i < rela_count table.now s }
    ensures { result ≡ rela_at table.now s i }
{
    entry_in(entries_of(table, s), i)
}

/// The section that relocations change, looked at once for all of them.
#[derive(Clone, Copy, Debug)]
struct Target {
    size: usize,
    is_text: bool,
    is_data: bool,
}

/// Section `t` as a target.
fn target_at(table: &SymbolTable<'_>, t: usize) -> Target
    requires within { t < section_count table.now }
    ensures size { result.size ≡ (section_at table.now t).size }
    ensures small { result.size < 2 ^ 32 }
    ensures text { result.is_text ≡ is_text table.now t }
    ensures data { result.is_data ≡ is_data table.now t }
{
    Target {
        size: table.section(t).size as usize,
        is_text: table.is_text(t),
        is_data: table.is_data(t),
    }
}

/// Whether the symbol of a relocation is not there, or was left out; `left_out` tells it of each symbol.
fn is_bad_reference(left_out: &[bool], rela: Rela) -> bool
    ensures { result ≡ is_bad_symbol_number left_out.now (symbol_index rela) }
{
    let symbol = symbol_index(rela);
    symbol != 0 && (symbol >= left_out.len() || left_out[symbol])
}

impl Target {
    /// Whether the field of a relocation leaves the section.
    fn is_left(&self, rela: Rela) -> bool
        requires { self.now.size < 2 ^ 32 }
        ensures { result ≡ nat_lt self.now.size (rela.offset + field_size (kind_of rela)) }
    {
        self.size < rela.offset as usize + field_size(kind_of(rela))
    }

    /// Whether a relocation does not fit what the section has.
    fn is_misfit(&self, rela: Rela) -> bool
        ensures { result ≡ misfits self.now.is_text self.now.is_data rela }
    {
        let kind = kind_of(rela);
        (self.is_text && (rela.offset % 4 != 0 || is_of_data(kind)))
            || (self.is_data && is_of_instruction(kind))
    }
}

/// Whether a relocation breaks a rule.
#[tactic(auto, unfolding(crate::specs::inner::Targets::breaks))]
fn is_bad_rela(left_out: &[bool], target: &Target, rela: Rela) -> bool
    requires { target.now.size < 2 ^ 32 }
    ensures { result ≡ breaks left_out.now target.now rela }
{
    is_bad_reference(left_out, rela) || target.is_left(rela) || target.is_misfit(rela)
}

/// The first of `count` entries that breaks a rule.
fn first_bad_of(left_out: &[bool], target: &Target, entries: &[u8], count: usize) -> Option<usize>
    requires size { target.now.size < 2 ^ 32 }
    requires whole { RELA_SIZE * count ≤ length entries.now }
    ensures some { IfSome result (IsFirst
        (λ i. breaks left_out.now target.now (entry_in entries.now i)) count) }
    ensures none { IfNone result (IsNone
        (λ i. breaks left_out.now target.now (entry_in entries.now i)) count) }
{
    for i in 0..count {
        if is_bad_rela(left_out, target, entry_in(entries, i)) {
            return Some(i);
        }
    }
    None
}

/// The first entry of section `s` that breaks a rule.
fn first_bad(table: &SymbolTable<'_>, left_out: &[bool], s: usize) -> Option<usize>
    requires within { s < section_count table.now }
    requires marks { AreLeftOut table.now left_out.now }
    ensures some { IfSome result (IsFirst (is_bad_rela_at table.now s) (rela_count table.now s)) }
    ensures none { IfNone result (IsNone (is_bad_rela_at table.now s) (rela_count table.now s)) }
{
    let count = rela_count(table, s);
    if count == 0 {
        return None;
    }
    let target = target_at(table, target_of(table, s));
    first_bad_of(left_out, &target, entries_of(table, s), count)
}

/// Whether each symbol was left out.
fn left_out(alloc: Global, table: &SymbolTable<'_>) -> Result<Vec<bool>, AllocError>
    ensures { IfOk result (λ marks. AreLeftOut table.now marks.items) }
{
    let mut marks = Vec::with_capacity(alloc, table.count())?;
    for k in 0..table.count() {
        marks.push(table.is_left_out(k))?;
    }
    Ok(marks)
}

/// The first of `count` entries whose kind is in no table.
fn first_unknown_of(entries: &[u8], count: usize) -> Option<usize>
    requires { RELA_SIZE * count ≤ length entries.now }
    ensures some { IfSome result (IsFirst
        (λ i. not (is_known (kind_of (entry_in entries.now i)))) count) }
    ensures none { IfNone result (IsNone
        (λ i. not (is_known (kind_of (entry_in entries.now i)))) count) }
{
    for i in 0..count {
        if !is_known(kind_of(entry_in(entries, i))) {
            return Some(i);
        }
    }
    None
}

/// The first entry of section `s` whose kind is in no table.
fn first_unknown(table: &SymbolTable<'_>, s: usize) -> Option<usize>
    requires within { s < section_count table.now }
    ensures some { IfSome result (IsFirst (is_unknown_at table.now s) (rela_count table.now s)) }
    ensures none { IfNone result (IsNone (is_unknown_at table.now s) (rela_count table.now s)) }
{
    first_unknown_of(entries_of(table, s), rela_count(table, s))
}

/// Whether no relocation breaks a rule.
pub fn check_relas(alloc: Global, table: &SymbolTable<'_>) -> Result<(), ElfFault>
    requires symbols { HasSymbols table.now }
    requires small { length table.now ≤ MAX_FILE }
    ensures ok { IfOk result (λ _. HasRelas table.now) }
    ensures fault { IfErr result (IsFirstFault table.now) }
{
    let marks = left_out(alloc, table)?;
    let mut before = 0;
    for s in 0..table.section_count() {
        if let Some(i) = first_bad(table, marks.as_slice(), s) {
            return Err(ElfFault::BadReloc((before + i) as u32));
        }
        before += rela_count(table, s);
    }
    Ok(())
}

/// Whether the kind of each relocation is known.
pub fn check_kinds(table: &SymbolTable<'_>) -> Result<(), ElfFault>
    requires relas { HasRelas table.now }
    requires small { length table.now ≤ MAX_FILE }
    ensures ok { IfOk result (λ _. HasKinds table.now) }
    ensures fault { IfErr result (IsFirstFault table.now) }
{
    let mut before = 0;
    for s in 0..table.section_count() {
        if let Some(i) = first_unknown(table, s) {
            let kind = kind_of(rela_at(table, s, i));
            return Err(ElfFault::UnknownReloc((before + i) as u32, kind));
        }
        before += rela_count(table, s);
    }
    Ok(())
}
