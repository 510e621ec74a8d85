//! The functions of a placed module.

ghost use Rattle.std.specs.Prelude.{◌≡◌, ◌&&◌, ℕ, List, true, false, is_some, IfOk};
ghost use Rattle.std.specs.List.{AllPairs};
ghost use Rattle.elf_read.specs.Sound.{are_rivals};
ghost use Rattle.cfi_place.specs.Names.{find_in, first_in};
ghost use Rattle.cfi_place.specs.inner.Wanted.{HasNamesOf};
ghost use Rattle.cfi_place.specs.Functions.{make_function, placed_functions, is_global_text, globals_in, has_global};

use crate::symbols::Symbols;
use cfi_aux::{Function, PlacedFunction};
use elf_read::{Binding, Name, Place, Symbol};
use std::alloc::{AllocError, Global};

fn is_global_text(symbol: &Symbol) -> bool
    ensures { result ≡ is_global_text symbol.now }
{
    symbol.binding == Binding::Global && symbol.place == Place::Text
}

// The names of functions.
fn names_of(alloc: Global, functions: &[Function]) -> Result<Symbols, AllocError>
    ensures { IfOk result (λ names. HasNamesOf functions.now (find_in names)) }
{
    let mut names = Symbols::new(alloc);
    for function in functions {
        names.add(function.name.as_str(), function.offset)?;
    }
    Ok(names)
}

// Whether it is a global symbol of text that has one of the names.
fn is_named(names: &Symbols, symbol: &Symbol) -> bool
    ensures { result ≡ (is_global_text symbol.now && is_some (find_in names.now symbol.now.name)) }
{
    is_global_text(symbol) && names.find(symbol.name.as_str()).is_some()
}

// Where the global symbols of text are that have one of the names.
fn globals(alloc: Global, symbols: &[Symbol], names: &Symbols) -> Result<Symbols, AllocError>
    ensures { IfOk result (λ globals. (name : List ℕ) → is_some (find_in names.now name) ≡ true →
        find_in globals name ≡ first_in (globals_in symbols.now) name) }
{
    let mut globals = Symbols::new(alloc);
    for symbol in symbols {
        if is_named(names, symbol) {
            globals.add(symbol.name.as_str(), symbol.value)?;
        }
    }
    Ok(globals)
}

// Whether the global symbols of text have the function's name where it begins.
fn has_global(globals: &Symbols, function: &Function) -> bool
    ensures { result ≡ has_global (find_in globals.now) function.now }
{
    match globals.find(function.name.as_str()) {
        Some(place) => place == function.offset,
        None => false,
    }
}

fn placed_function(
    alloc: Global,
    globals: &Symbols,
    function: &Function,
) -> Result<PlacedFunction, AllocError>
    ensures { IfOk result (λ placed.
        placed ≡ make_function (has_global (find_in globals.now) function.now) function.now) }
{
    let name = String::from_str(alloc, function.name.as_str())?;
    Ok(PlacedFunction {
        first: function.offset / 4,
        count: function.length / 4,
        ty: function.ty,
        taken: function.taken,
        global: has_global(globals, function),
        name: Name::from_string(name),
    })
}

/// The functions of a module's records, in words from its start.
///
/// `symbols` are the object's, no two of which define one name.
pub fn placed_functions(
    alloc: Global,
    symbols: &[Symbol],
    functions: &[Function],
) -> Result<Vec<PlacedFunction>, AllocError>
    requires { AllPairs (λ a b. are_rivals a b ≡ false) symbols.now }
    ensures { IfOk result (λ placed. placed.items ≡ placed_functions symbols.now functions.now) }
{
    let globals = globals(alloc, symbols, &names_of(alloc, functions)?)?;
    let mut placed = Vec::with_capacity(alloc, functions.len())?;
    for function in functions {
        placed.push(placed_function(alloc, &globals, function)?)?;
    }
    Ok(placed)
}
