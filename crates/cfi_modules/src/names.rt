//! The names that a module asks for.

ghost use Rattle.std.specs.Prelude.{◌≡◌, ℕ, ◌||◌, Bool, List, if◌then◌else◌, None, bytes_eq, IfOk, OnOk};
ghost use Rattle.cfi_place.specs.declared.room.Room.{Room};
ghost use Rattle.cfi_place.specs.Names.{Names, find_in};
ghost use Rattle.cfi_place.specs.Value.{values_by};
ghost use Rattle.cfi_place.specs.inner.Wanted.{is_undefined};
ghost use Rattle.cfi_modules.specs.inner.Index.{address_in, asked_in, IsIndexOf};
ghost use Rattle.cfi_modules.specs.Order.{names_of};

use crate::index::Index;
use cfi_aux::Placed;
use cfi_place::Symbols;
use elf_read::{Place, Symbol};
use std::alloc::{AllocError, Global};

fn is_undefined(symbol: &Symbol) -> bool
    ensures { result ≡ is_undefined symbol.now }
{
    match symbol.place {
        Place::Undefined => true,
        Place::Absolute | Place::Text | Place::Data => false,
    }
}

// Adds the name of a symbol with the address that the modules give it.
fn add_asked(
    names: &mut Symbols,
    index: &Index,
    placed: &[Placed],
    name: &str,
) -> Result<(), AllocError>
    ensures { OnOk result ((asked : List ℕ → Bool) →
        ((other : List ℕ) → find_in names.old other
        ≡ (if asked other then address_in placed.now index.now other else None)) →
        (other : List ℕ) → find_in names.new other
        ≡ (if asked other || bytes_eq name.now other
        then address_in placed.now index.now other else None)) }
{
    match index.find(placed, name) {
        Some(address) => names.add(name, address),
        None => Ok(()),
    }
}

// The names that symbols leave undefined, as far as the modules export them.
fn asked_names(
    alloc: Global,
    index: &Index,
    placed: &[Placed],
    symbols: &[Symbol],
) -> Result<Symbols, AllocError>
    ensures { IfOk result (λ names. (name : List ℕ) →
        find_in names name ≡ asked_in (address_in placed.now index.now) symbols.now name) }
{
    let mut names = Symbols::new(alloc);
    for symbol in symbols {
        if is_undefined(symbol) {
            add_asked(&mut names, index, placed, symbol.name.as_str())?;
        }
    }
    Ok(names)
}

/// The names that symbols leave undefined: the symbols have the values that they have by all that the modules export.
pub fn names_for(
    alloc: Global,
    index: &Index,
    placed: &[Placed],
    symbols: &[Symbol],
) -> Result<Symbols, AllocError>
    requires { IsIndexOf placed.now index.now }
    ensures { IfOk result (λ names. (room : Room) (own : Names) →
        values_by room own (find_in names) symbols.now
        ≡ values_by room own (names_of placed.now) symbols.now) }
{
    asked_names(alloc, index, placed, symbols)
}
