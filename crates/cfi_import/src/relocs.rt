//! The relocations of a module with stubs.

ghost use Rattle.std.specs.Prelude.{◌≡◌, ◌++◌, ◌≤◌, ◌<◌, ℕ, All, map, length, OnOk, IfOk};
ghost use Rattle.elf_read.specs.Places.{joined};
ghost use Rattle.cfi_word.specs.declared.limits.TheConstants.{MAX_SYMBOLS};
ghost use Rattle.cfi_import.specs.Stubs.{cell_reloc, stub_relocs, shifted, led, new_number, moved};
ghost use Rattle.cfi_import.specs.Stubbed.{with_relocs};
ghost use Rattle.cfi_import.specs.inner.Found.{place_in};
ghost use Rattle.cfi_import.specs.inner.Room.{HasRoom, IsPlace, IsSmallNumber};

use crate::imports::leads;
use crate::start::{STUB_SYMBOLS, Start, text_end};
use elf_read::relocation::{HI20, LO12_I};
use elf_read::{Area, Reloc};
use std::alloc::{AllocError, Global};

// The place of the import of a number, where it is one.
fn place_in(places: &[Option<u32>], number: u32) -> Option<u32>
    ensures { result ≡ place_in places.now number }
{
    *places.get(number as usize)?
}

// The number of a symbol, once those of the stubs stand.
fn shifted(start: Start, number: u32) -> u32
    requires room { HasRoom start }
    requires small { number ≤ MAX_SYMBOLS }
    ensures { result ≡ shifted start number }
{
    if number < start.symbols {
        number
    } else {
        number + STUB_SYMBOLS * start.count
    }
}

// The number that stands for a symbol of which the place among the imports is known.
fn led(start: Start, place: Option<u32>, number: u32) -> u32
    requires room { HasRoom start }
    requires there { IsPlace start place }
    requires small { number ≤ MAX_SYMBOLS }
    ensures { result ≡ led start place number }
{
    match place {
        None => shifted(start, number),
        Some(place) => start.stub_symbol(place),
    }
}

// The number that a relocation of a kind names in place of another.
fn new_number(start: Start, places: &[Option<u32>], kind: u32, number: u32) -> u32
    requires room { HasRoom start }
    requires there { (k : ℕ) → IsPlace start (place_in places.now k) }
    requires small { number ≤ MAX_SYMBOLS }
    ensures { result ≡ new_number start (place_in places.now) kind number }
{
    if leads(kind) {
        led(start, place_in(places, number), number)
    } else {
        shifted(start, number)
    }
}

// A relocation, by the new numbers of symbols.
fn moved(start: Start, places: &[Option<u32>], reloc: &Reloc) -> Reloc
    requires room { HasRoom start }
    requires there { (k : ℕ) → IsPlace start (place_in places.now k) }
    requires small { IsSmallNumber reloc.now.symbol }
    ensures { result ≡ moved start (place_in places.now) reloc.now }
{
    let symbol = match reloc.symbol {
        None => None,
        Some(number) => Some(new_number(start, places, reloc.kind, number)),
    };
    Reloc { symbol, ..*reloc }
}

// Adds relocations, by the new numbers of symbols.
fn push_moved(
    out: &mut Vec<Reloc>,
    start: Start,
    places: &[Option<u32>],
    relocs: &[Reloc],
) -> Result<(), AllocError>
    requires room { HasRoom start }
    requires there { (k : ℕ) → IsPlace start (place_in places.now k) }
    requires small { All (λ reloc. IsSmallNumber reloc.symbol) relocs.now }
    ensures { OnOk result (out.new.items
        ≡ out.old.items ++ map (moved start (place_in places.now)) relocs.now) }
{
    for reloc in relocs {
        out.push(moved(start, places, reloc))?;
    }
    Ok(())
}

// A relocation to the cell of the stub of a place.
fn cell_reloc(start: Start, place: u32, offset: u32, kind: u32) -> Reloc
    requires room { HasRoom start }
    requires there { place < start.count }
    ensures { result ≡ cell_reloc start place offset kind }
{
    Reloc {
        area: Area::Text,
        offset,
        kind,
        symbol: Some(start.cell_symbol(place)),
        addend: 0,
    }
}

// Adds the relocations of the stub of a place.
fn push_stub_relocs(out: &mut Vec<Reloc>, start: Start, place: u32) -> Result<(), AllocError>
    requires room { HasRoom start }
    requires there { place < start.count }
    ensures { OnOk result (out.new.items ≡ out.old.items ++ stub_relocs start place) }
{
    let offset = start.stub_offset(place);
    out.push(cell_reloc(start, place, offset, HI20))?;
    out.push(cell_reloc(start, place, offset + 4, LO12_I))?;
    Ok(())
}

// Adds the relocations of all stubs.
fn push_all_stubs(out: &mut Vec<Reloc>, start: Start) -> Result<(), AllocError>
    requires { HasRoom start }
    ensures { OnOk result (out.new.items
        ≡ out.old.items ++ joined (stub_relocs start) start.count) }
{
    for place in 0..start.count {
        push_stub_relocs(out, start, place)?;
    }
    Ok(())
}

/// Relocations, with those of stubs straight after the last one in text; those that call or jump to an import lead to
/// its stub.
///
/// `places` says for each symbol where it is among the imports, where it is one.
pub fn with_relocs(
    alloc: Global,
    start: Start,
    places: &[Option<u32>],
    relocs: &[Reloc],
) -> Result<Vec<Reloc>, AllocError>
    requires room { HasRoom start }
    requires there { (k : ℕ) → IsPlace start (place_in places.now k) }
    requires small { All (λ reloc. IsSmallNumber reloc.symbol) relocs.now }
    ensures { IfOk result (λ made.
        made.items ≡ with_relocs start (place_in places.now) relocs.now) }
{
    let (before, after) = relocs.split_at(text_end(relocs));
    let mut made = Vec::with_capacity(alloc, relocs.len())?;
    push_moved(&mut made, start, places, before)?;
    push_all_stubs(&mut made, start)?;
    push_moved(&mut made, start, places, after)?;
    Ok(made)
}
