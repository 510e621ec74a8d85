//! The symbols of a module with stubs.

ghost use Rattle.std.specs.Prelude.{◌≡◌, ◌++◌, ◌≤◌, ◌<◌, length, OnOk, IfOk};
ghost use Rattle.elf_read.specs.Places.{joined};
ghost use Rattle.cfi_import.specs.Stubs.{unnamed, stub_symbols};
ghost use Rattle.cfi_import.specs.Stubbed.{with_symbols};
ghost use Rattle.cfi_import.specs.inner.Room.{HasRoom};

use crate::copies::push_symbols;
use crate::start::Start;
use elf_read::{Binding, Name, Place, Symbol};
use std::alloc::{AllocError, Global};

// A local symbol without a name.
fn unnamed(alloc: Global, place: Place, value: u32) -> Symbol
    ensures { result ≡ unnamed place value }
{
    Symbol {
        name: Name::from_string(String::new(alloc)),
        binding: Binding::Local,
        place,
        value,
    }
}

// Adds the symbols of the stub of a place.
fn push_stub_symbols(
    alloc: Global,
    out: &mut Vec<Symbol>,
    start: Start,
    place: u32,
) -> Result<(), AllocError>
    requires room { HasRoom start }
    requires there { place < start.count }
    ensures { OnOk result (out.new.items ≡ out.old.items ++ stub_symbols start place) }
{
    out.push(unnamed(alloc, Place::Text, start.stub_offset(place)))?;
    out.push(unnamed(alloc, Place::Data, start.cell_offset(place)))?;
    Ok(())
}

// Adds the symbols of all stubs.
fn push_all_stubs(alloc: Global, out: &mut Vec<Symbol>, start: Start) -> Result<(), AllocError>
    requires { HasRoom start }
    ensures { OnOk result (out.new.items
        ≡ out.old.items ++ joined (stub_symbols start) start.count) }
{
    for place in 0..start.count {
        push_stub_symbols(alloc, out, start, place)?;
    }
    Ok(())
}

/// Symbols, with those of stubs before the first one that is not local.
pub fn with_symbols(
    alloc: Global,
    start: Start,
    symbols: &[Symbol],
) -> Result<Vec<Symbol>, AllocError>
    requires room { HasRoom start }
    requires within { start.symbols ≤ length symbols.now }
    ensures { IfOk result (λ made. made.items ≡ with_symbols start symbols.now) }
{
    let (before, after) = symbols.split_at(start.symbols as usize);
    let mut made = Vec::with_capacity(alloc, symbols.len())?;
    push_symbols(alloc, &mut made, before)?;
    push_all_stubs(alloc, &mut made, start)?;
    push_symbols(alloc, &mut made, after)?;
    Ok(made)
}
