ghost use Rattle.std.specs.Prelude.{◌≡◌, ◌<◌, ◌≤◌, ◌+◌, ◌*◌, ◌++◌, false, length, IfOk, OnOk};
ghost use Rattle.elf_read.specs.Header.{section_count};
ghost use Rattle.elf_read.specs.Places.{joined};
ghost use Rattle.elf_read.specs.Symbol.{symbol_count, is_left_out};
ghost use Rattle.elf_read.specs.Relocation.{rela_count};
ghost use Rattle.elf_read.specs.Object.{kept_binding, kept_place, kept_value, kept_symbol, symbols_of, area_of, reference_of, kept_reloc, reloc_of, relocs_of};
ghost use Rattle.elf_read.specs.Layout.{IsLayout, IsNumbering};
ghost use Rattle.elf_read.specs.Fault.{IsSound, IsObject};
ghost use Rattle.elf_read.specs.Section.{contents};
ghost use Rattle.elf_read.specs.declared.relocation.TheConstants.{RELA_SIZE};

use crate::join::{join_data, join_text, record_bytes};
use crate::layout::Layout;
use crate::object::{Area, Binding, Name, Object, Place, Reloc, Relocs, Symbol, Symbols};
use crate::rela::{entries_of, entry_in, kind_of, rela_at, rela_count, symbol_index, target_of};
use crate::relocation::is_dropped;
use crate::section::{CFI_RECORDS, CFI_TYPES};
use crate::symbol::{ABSOLUTE, GLOBAL, LOCAL, UNDEFINED};
use crate::symbol_table::{SymbolTable, binding_of};
use std::alloc::{AllocError, Global};

/// The binding of symbol `k`.
#[tactic(auto, unfolding(crate::specs::Object::kept_binding))]
fn kept_binding(table: &SymbolTable<'_>, k: usize) -> Binding
    requires within { k < symbol_count table.now }
    ensures { result ≡ kept_binding table.now k }
{
    let binding = binding_of(table.symbol(k));
    if binding == LOCAL {
        Binding::Local
    } else if binding == GLOBAL {
        Binding::Global
    } else {
        Binding::Weak
    }
}

/// The place of symbol `k`.
#[tactic(auto, unfolding(crate::specs::Object::kept_place))]
fn kept_place(table: &SymbolTable<'_>, k: usize) -> Place
    requires within { k < symbol_count table.now }
    requires sound { IsSound table.now }
    requires kept { is_left_out table.now k ≡ false }
    ensures { result ≡ kept_place table.now k }
{
    let section = table.symbol(k).section;
    if section == UNDEFINED {
        Place::Undefined
    } else if section == ABSOLUTE {
        Place::Absolute
    } else if table.is_text(section as usize) {
        Place::Text
    } else {
        Place::Data
    }
}

/// The value of symbol `k`, in a section from the start of the joined text or data.
#[tactic(auto, unfolding(crate::specs::Object::kept_value))]
fn kept_value(table: &SymbolTable<'_>, layout: &Layout, k: usize) -> u32
    requires within { k < symbol_count table.now }
    requires sound { IsSound table.now }
    requires kept { is_left_out table.now k ≡ false }
    requires layout { IsLayout table.now layout.now }
    ensures { result ≡ kept_value table.now k }
{
    let entry = table.symbol(k);
    if !table.is_in_section(k) {
        return entry.value;
    }
    let start = layout.starts[entry.section as usize];
    (start + entry.value as usize) as u32
}

/// Symbol `k`.
#[tactic(auto, unfolding(crate::specs::Object::kept_symbol))]
fn kept_symbol(
    alloc: Global,
    table: &SymbolTable<'_>,
    layout: &Layout,
    k: usize,
) -> Result<Symbol, AllocError>
    requires within { k < symbol_count table.now }
    requires sound { IsSound table.now }
    requires kept { is_left_out table.now k ≡ false }
    requires layout { IsLayout table.now layout.now }
    ensures { IfOk result (λ symbol. symbol ≡ kept_symbol table.now k) }
{
    let name = table.name(k).unwrap();
    let text = String::from_str(alloc, name)?;
    Ok(Symbol {
        name: Name::from_string(text),
        binding: kept_binding(table, k),
        place: kept_place(table, k),
        value: kept_value(table, layout, k),
    })
}

/// Adds symbol `k`, if it is kept.
#[tactic(auto, unfolding(crate::specs::Object::symbols_of))]
fn push_symbol(
    alloc: Global,
    out: &mut Vec<Symbol>,
    table: &SymbolTable<'_>,
    layout: &Layout,
    k: usize,
) -> Result<(), AllocError>
    requires within { k < symbol_count table.now }
    requires sound { IsSound table.now }
    requires layout { IsLayout table.now layout.now }
    ensures { OnOk result (out.new.items ≡ out.old.items ++ symbols_of table.now k) }
{
    if !table.is_left_out(k) {
        out.push(kept_symbol(alloc, table, layout, k)?)?;
    }
    Ok(())
}

/// The symbols that are kept.
fn keep_symbols(
    alloc: Global,
    table: &SymbolTable<'_>,
    layout: &Layout,
) -> Result<Symbols, AllocError>
    requires sound { IsSound table.now }
    requires layout { IsLayout table.now layout.now }
    ensures { IfOk result (λ symbols.
        symbols ≡ joined (symbols_of table.now) (symbol_count table.now)) }
{
    let mut out = Vec::new(alloc);
    for k in 0..table.count() {
        push_symbol(alloc, &mut out, table, layout, k)?;
    }
    Ok(Symbols::from_vec(out))
}

/// What the relocations of section `s` change.
#[tactic(auto, unfolding(crate::specs::Object::area_of))]
fn area_of(table: &SymbolTable<'_>, s: usize) -> Area
    requires within { s < section_count table.now }
    requires some { 0 < rela_count table.now s }
    ensures { result ≡ area_of table.now s }
{
    if table.is_text(target_of(table, s)) {
        Area::Text
    } else {
        Area::Data
    }
}

/// The symbol of entry `i` of section `s`, by its number among those that are kept.
#[tactic(auto, unfolding(crate::specs::Object::reference_of))]
fn reference_of(table: &SymbolTable<'_>, numbers: &[usize], s: usize, i: usize) -> Option<u32>
    requires within { s < section_count table.now }
    requires entry { i < rela_count table.now s }
    requires sound { IsSound table.now }
    requires numbers { IsNumbering table.now numbers.now }
    ensures { result ≡ reference_of table.now s i }
{
    let symbol = symbol_index(rela_at(table, s, i));
    if symbol == 0 {
        return None;
    }
    Some(numbers[symbol] as u32)
}

/// Where the field of entry `i` of section `s` begins in the joined text or data.
fn offset_of(table: &SymbolTable<'_>, layout: &Layout, s: usize, i: usize) -> u32
    requires within { s < section_count table.now }
    requires entry { i < rela_count table.now s }
    requires sound { IsSound table.now }
    requires layout { IsLayout table.now layout.now }
    ensures { result ≡ (kept_reloc table.now s i).offset }
{
    let start = layout.starts[target_of(table, s)];
    (start + rela_at(table, s, i).offset as usize) as u32
}

/// Entry `i` of section `s`.
#[tactic(auto, unfolding(crate::specs::Object::kept_reloc))]
fn kept_reloc(
    table: &SymbolTable<'_>,
    layout: &Layout,
    numbers: &[usize],
    s: usize,
    i: usize,
) -> Reloc
    requires within { s < section_count table.now }
    requires entry { i < rela_count table.now s }
    requires sound { IsSound table.now }
    requires layout { IsLayout table.now layout.now }
    requires numbers { IsNumbering table.now numbers.now }
    ensures { result ≡ kept_reloc table.now s i }
{
    let rela = rela_at(table, s, i);
    Reloc {
        area: area_of(table, s),
        offset: offset_of(table, layout, s, i),
        kind: kind_of(rela),
        symbol: reference_of(table, numbers, s, i),
        addend: rela.addend.cast_signed(),
    }
}

/// Adds entry `i` of section `s`, if it is kept. `entries` are the section's bytes.
#[tactic(auto, unfolding(crate::specs::Object::reloc_of, crate::specs::Relocation::rela_at))]
fn push_reloc(
    out: &mut Vec<Reloc>,
    table: &SymbolTable<'_>,
    layout: &Layout,
    numbers: &[usize],
    entries: &[u8],
    s: usize,
    i: usize,
) -> Result<(), AllocError>
    requires within { s < section_count table.now }
    requires entry { i < rela_count table.now s }
    requires entries { entries.now ≡ contents table.now s }
    requires whole { RELA_SIZE * rela_count table.now s ≤ length entries.now }
    requires sound { IsSound table.now }
    requires layout { IsLayout table.now layout.now }
    requires numbers { IsNumbering table.now numbers.now }
    ensures { OnOk result (out.new.items ≡ out.old.items ++ reloc_of table.now s i) }
{
    if !is_dropped(kind_of(entry_in(entries, i))) {
        out.push(kept_reloc(table, layout, numbers, s, i))?;
    }
    Ok(())
}

/// Adds the relocations of section `s`.
#[tactic(auto, unfolding(crate::specs::Object::relocs_of))]
fn push_relocs(
    out: &mut Vec<Reloc>,
    table: &SymbolTable<'_>,
    layout: &Layout,
    numbers: &[usize],
    s: usize,
) -> Result<(), AllocError>
    requires within { s < section_count table.now }
    requires sound { IsSound table.now }
    requires layout { IsLayout table.now layout.now }
    requires numbers { IsNumbering table.now numbers.now }
    ensures { OnOk result (out.new.items ≡ out.old.items ++ relocs_of table.now s) }
{
    let entries = entries_of(table, s);
    for i in 0..rela_count(table, s) {
        push_reloc(out, table, layout, numbers, entries, s, i)?;
    }
    Ok(())
}

/// The relocations that are kept.
fn keep_relocs(
    alloc: Global,
    table: &SymbolTable<'_>,
    layout: &Layout,
    numbers: &[usize],
) -> Result<Relocs, AllocError>
    requires sound { IsSound table.now }
    requires layout { IsLayout table.now layout.now }
    requires numbers { IsNumbering table.now numbers.now }
    ensures { IfOk result (λ relocs.
        relocs ≡ joined (relocs_of table.now) (section_count table.now)) }
{
    let mut out = Vec::new(alloc);
    for s in 0..table.section_count() {
        push_relocs(&mut out, table, layout, numbers, s)?;
    }
    Ok(Relocs::from_vec(out))
}

/// What a file keeps that is within the limits.
pub fn kept_object(
    alloc: Global,
    table: &SymbolTable<'_>,
    layout: &Layout,
    numbers: &[usize],
) -> Result<Object, AllocError>
    requires sound { IsSound table.now }
    requires layout { IsLayout table.now layout.now }
    requires numbers { IsNumbering table.now numbers.now }
    ensures { IfOk result (IsObject table.now) }
{
    Ok(Object {
        text: join_text(alloc, table)?,
        static_data: join_data(alloc, table)?,
        symbols: keep_symbols(alloc, table, layout)?,
        relocs: keep_relocs(alloc, table, layout, numbers)?,
        types: record_bytes(alloc, table, CFI_TYPES)?,
        records: record_bytes(alloc, table, CFI_RECORDS)?,
    })
}
