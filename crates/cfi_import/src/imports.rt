//! The imports of an object.

ghost use Rattle.std.specs.Prelude.{◌≡◌, ◌<◌, ◌^◌, ℕ, All, filter, length, OnOk, IfOk};
ghost use Rattle.std.specs.List.{enumerate_from};
ghost use Rattle.elf_read.specs.Sound.{HasSymbol};
ghost use Rattle.cfi_import.specs.Imports.{leads, is_wanted, imports_of, names_of, place_of};
ghost use Rattle.cfi_import.specs.inner.Found.{led_to, mark_of, marked, marks_of, is_found, places_from, place_in};

use elf_read::relocation::{CALL, CALL_PLT, JAL};
use elf_read::{Binding, Name, Object, Place, Reloc, Symbol};
use std::alloc::{AllocError, Global};

/// The imports of an object, in the order of their numbers.
#[derive(Drop)]
pub struct Imports {
    /// Their names.
    pub names: Vec<Name>,
    /// For each symbol where it is among the imports, where it is one.
    pub places: Vec<Option<u32>>,
}

/// Whether relocations of this kind are of calls and jumps.
pub fn leads(kind: u32) -> bool
    ensures { result ≡ leads kind }
{
    kind == CALL || kind == CALL_PLT || kind == JAL
}

// The number of the symbol that a call or a jump leads to.
fn led_to(reloc: &Reloc) -> Option<u32>
    ensures { result ≡ led_to reloc.now }
{
    if leads(reloc.kind) {
        reloc.symbol
    } else {
        None
    }
}

// Marks the symbol that a call or a jump leads to.
fn mark(marks: &mut [bool], reloc: &Reloc)
    ensures { marks.new ≡ marked marks.old reloc.now }
{
    if let Some(number) = led_to(reloc) {
        let number = number as usize;
        if number < marks.len() {
            marks[number] = true;
        }
    }
}

// For each of so many symbols whether a call or a jump leads to it.
fn marks_of(alloc: Global, count: usize, relocs: &[Reloc]) -> Result<Vec<bool>, AllocError>
    ensures { IfOk result (λ marks. marks.items ≡ marks_of count relocs.now) }
{
    let mut marks = vec![in alloc; false; count]?;
    for reloc in relocs {
        mark(&mut marks, reloc);
    }
    Ok(marks)
}

fn is_wanted(symbol: &Symbol) -> bool
    ensures { result ≡ is_wanted symbol.now }
{
    symbol.binding == Binding::Global && symbol.place == Place::Undefined
}

// Whether the symbol of a number is an import, by these marks.
fn is_found(marks: &[bool], number: usize, symbol: &Symbol) -> bool
    ensures { result ≡ is_found marks.now (number, symbol.now) }
{
    is_wanted(symbol) && marks.get(number).copied().unwrap_or(false)
}

// The imports, by these marks.
fn scan(alloc: Global, symbols: &[Symbol], marks: &[bool]) -> Result<Imports, AllocError>
    requires { length symbols.now < 2 ^ 32 }
    ensures names { IfOk result (λ found. found.names.items
        ≡ names_of (filter (is_found marks.now) (enumerate_from 0 symbols.now))) }
    ensures places { IfOk result (λ found. found.places.items
        ≡ places_from (is_found marks.now) 0 0 symbols.now) }
{
    let mut names = Vec::new(alloc);
    let mut places = Vec::with_capacity(alloc, symbols.len())?;
    let mut place = 0;
    for (number, symbol) in symbols.iter().enumerate() {
        if is_found(marks, number, symbol) {
            let name = String::from_str(alloc, symbol.name.as_str())?;
            names.push(Name::from_string(name))?;
            places.push(Some(place))?;
            place += 1;
        } else {
            places.push(None)?;
        }
    }
    Ok(Imports { names, places })
}

/// The imports of an object.
pub fn find_imports(alloc: Global, object: &Object) -> Result<Imports, AllocError>
    requires symbols { length object.now.symbols < 2 ^ 32 }
    ensures names { IfOk result (λ found.
        found.names.items ≡ names_of (imports_of object.now)) }
    ensures places { IfOk result (λ found. (number : ℕ) →
        place_in found.places.items number ≡ place_of (imports_of object.now) number) }
{
    let symbols = object.symbols.as_slice();
    let marks = marks_of(alloc, symbols.len(), object.relocs.as_slice())?;
    scan(alloc, symbols, &marks)
}
