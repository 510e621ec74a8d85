ghost use Rattle.std.specs.Prelude.{◌≡◌, ◌+◌, ◌<◌, ◌^◌, ◌++◌, ◌==◌, if◌then◌else◌, length, count_by, OnOk, All};
ghost use Rattle.elf_write.specs.Contents.{zero_ended, name_table, binding_number, section_number, symbol_entry, null_entry, symbol_table, is_local_symbol, info_of, rela_entry, is_in, relas_of};

use crate::word::{put_halves, put_words};
use elf_read::{
    ABSOLUTE, Area, Binding, GLOBAL, LOCAL, Place, Reloc, SYMBOL_SIZE, Symbol, UNDEFINED, WEAK,
};
use std::alloc::AllocError;

/// Adds a name to a table of names: its bytes and a zero byte, nothing for the empty name.
fn put_name(out: &mut Vec<u8>, name: &[u8]) -> Result<(), AllocError>
    ensures { OnOk result (out.new.items ≡ out.old.items ++ zero_ended name.now) }
{
    if name.is_empty() {
        return Ok(());
    }
    out.extend_from_slice(name)?;
    out.push(0)?;
    Ok(())
}

/// Adds the table of the names of the symbols.
#[tactic(auto, unfolding(crate::specs::Contents::name_table))]
pub fn put_names(out: &mut Vec<u8>, symbols: &[Symbol]) -> Result<(), AllocError>
    ensures { OnOk result (out.new.items ≡ out.old.items ++ name_table symbols.now) }
{
    out.push(0)?;
    for symbol in symbols {
        put_name(out, symbol.name.as_str().as_bytes())?;
    }
    Ok(())
}

/// The number of a binding.
fn binding_number(binding: Binding) -> u8
    ensures same { result ≡ binding_number binding }
    ensures small { result < 3 }
{
    match binding {
        Binding::Local => LOCAL,
        Binding::Global => GLOBAL,
        Binding::Weak => WEAK,
    }
}

/// The number of the section that a place is.
fn section_number(place: Place) -> u16
    ensures { result ≡ section_number place }
{
    match place {
        Place::Undefined => UNDEFINED,
        Place::Absolute => ABSOLUTE,
        Place::Text => 1,
        Place::Data => 2,
    }
}

/// Adds the entry of a symbol whose name begins at `place`.
#[tactic(auto, unfolding(crate::specs::Contents::symbol_entry))]
fn put_symbol(out: &mut Vec<u8>, symbol: &Symbol, place: u32) -> Result<(), AllocError>
    ensures { OnOk result (out.new.items ≡ out.old.items ++ symbol_entry place symbol.now) }
{
    put_words(out, &[place, symbol.value, 0])?;
    out.extend_from_slice(&[16 * binding_number(symbol.binding), 0])?;
    put_halves(out, &[section_number(symbol.place)])
}

/// Adds the entry of symbol 0.
#[tactic(auto, unfolding(crate::specs::Contents::null_entry))]
fn put_null_entry(out: &mut Vec<u8>) -> Result<(), AllocError>
    ensures { OnOk result (out.new.items ≡ out.old.items ++ null_entry) }
{
    out.extend_from_slice(&[0; SYMBOL_SIZE])
}

/// How many bytes the name of a symbol has in a table of names.
fn ended_len(symbol: &Symbol) -> usize
    requires small { length symbol.now.name < 2 ^ 32 }
    ensures { result ≡ length (zero_ended symbol.now.name) }
{
    let len = symbol.name.as_str().len();
    if len == 0 { 0 } else { len + 1 }
}

/// Where the name of a symbol begins, after a table of names of `names` bytes; 0 for the empty name.
fn place_after(symbol: &Symbol, names: u32) -> u32
    ensures { result ≡ (if length symbol.now.name == 0 then 0 else names) }
{
    if symbol.name.as_str().is_empty() {
        0
    } else {
        names
    }
}

/// Adds the symbol table.
#[tactic(auto, unfolding(crate::specs::Contents::symbol_table))]
pub fn put_symbols(out: &mut Vec<u8>, symbols: &[Symbol]) -> Result<(), AllocError>
    requires names { length (name_table symbols.now) < 2 ^ 32 }
    ensures { OnOk result (out.new.items ≡ out.old.items ++ symbol_table symbols.now) }
{
    put_null_entry(out)?;
    let mut names = 1;
    for symbol in symbols {
        put_symbol(out, symbol, place_after(symbol, names as u32))?;
        names += ended_len(symbol);
    }
    Ok(())
}

/// How many symbols are local.
pub fn local_count(symbols: &[Symbol]) -> usize
    ensures { result ≡ count_by is_local_symbol symbols.now }
{
    symbols
        .iter()
        .filter(|symbol| matches!(symbol.binding, Binding::Local))
        .count()
}

/// The info of a relocation: the number of its symbol in the table, and its kind.
fn info_of(reloc: Reloc) -> u32
    requires fits { info_of reloc < 2 ^ 32 }
    ensures { result ≡ info_of reloc }
{
    match reloc.symbol {
        None => reloc.kind,
        Some(symbol) => 256 * (symbol + 1) + reloc.kind,
    }
}

/// Adds the entry of a relocation.
#[tactic(auto, unfolding(crate::specs::Contents::rela_entry))]
fn put_rela(out: &mut Vec<u8>, reloc: Reloc) -> Result<(), AllocError>
    requires fits { info_of reloc < 2 ^ 32 }
    ensures { OnOk result (out.new.items ≡ out.old.items ++ rela_entry reloc) }
{
    let info = info_of(reloc);
    put_words(out, &[reloc.offset, info, reloc.addend.cast_unsigned()])
}

/// Whether a relocation is of an area.
fn is_in(area: Area, reloc: Reloc) -> bool
    ensures { result ≡ is_in area reloc }
{
    match area {
        Area::Text => matches!(reloc.area, Area::Text),
        Area::Data => matches!(reloc.area, Area::Data),
    }
}

/// Adds the relocations of an area.
#[tactic(auto, unfolding(crate::specs::Contents::relas_of))]
pub fn put_relas(out: &mut Vec<u8>, area: Area, relocs: &[Reloc]) -> Result<(), AllocError>
    requires infos { All (λ reloc. info_of reloc < 2 ^ 32) relocs.now }
    ensures { OnOk result (out.new.items ≡ out.old.items ++ relas_of area relocs.now) }
{
    for reloc in relocs {
        if is_in(area, *reloc) {
            put_rela(out, *reloc)?;
        }
    }
    Ok(())
}
