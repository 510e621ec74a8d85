//! What the symbols of a module stand for.

ghost use Rattle.std.specs.Prelude.{◌≡◌, ◌<◌, ◌^◌, ℕ, List, All, IfOk};
ghost use Rattle.std.specs.List.{list_any};
ghost use Rattle.cfi_aux.specs.Placed.{address_of};
ghost use Rattle.cfi_place.specs.Names.{Names, find_in, first_in};
ghost use Rattle.cfi_place.specs.Value.{named_value, value_of, values_by};
ghost use Rattle.cfi_place.specs.inner.Wanted.{is_undefined};
ghost use Rattle.cfi_place.specs.declared.room.Room.{Room};

use crate::room::Room;
use crate::symbols::Symbols;
use cfi_aux::address_of;
use cfi_values::Items;
use elf_read::{Binding, Name, Place, Symbol};
use std::alloc::{AllocError, Global};

// The value that a symbol stores.
fn stored_value(symbol: &Symbol) -> u32
    ensures same { result ≡ symbol.now.value }
    ensures fits { result < 2 ^ 32 }
{
    symbol.value
}

/// Reads the value of each symbol, which shows that it has 32 bits.
pub fn see_values(symbols: &[Symbol])
    ensures { All (λ s. s.value < 2 ^ 32) symbols.now }
{
    for symbol in symbols {
        stored_value(symbol);
    }
}

// The module's own addresses of names: those of its exports.
fn own_addresses(alloc: Global, exports: &Items<(Name, u32)>) -> Result<Symbols, AllocError>
    ensures { IfOk result (λ own. (name : List ℕ) → find_in own name ≡ first_in exports.now name) }
{
    let mut own = Symbols::new(alloc);
    let pairs = exports.as_slice();
    for (name, address) in pairs {
        own.add(name.as_str(), *address)?;
    }
    Ok(own)
}

fn is_undefined(symbol: &Symbol) -> bool
    ensures { result ≡ is_undefined symbol.now }
{
    match symbol.place {
        Place::Undefined => true,
        Place::Absolute | Place::Text | Place::Data => false,
    }
}

// Whether some symbol is undefined.
fn some_undefined(symbols: &[Symbol]) -> bool
    ensures { result ≡ list_any is_undefined symbols.now }
{
    symbols.iter().any(|symbol| is_undefined(symbol))
}

// The module's own addresses of the names that symbols leave undefined; none are looked up where no symbol does.
fn wanted_addresses(
    alloc: Global,
    exports: &Items<(Name, u32)>,
    symbols: &[Symbol],
) -> Result<Symbols, AllocError>
    ensures { IfOk result (λ own. (room : Room) (names : Names) →
        values_by room (find_in own) names symbols.now
        ≡ values_by room (first_in exports.now) names symbols.now) }
{
    if some_undefined(symbols) {
        return own_addresses(alloc, exports);
    }
    Ok(Symbols::new(alloc))
}

fn named_value(own: &Symbols, names: &Symbols, symbol: &Symbol) -> Option<u32>
    ensures { result ≡ named_value (find_in own.now) (find_in names.now) symbol.now }
{
    let name = symbol.name.as_str();
    if let Some(address) = own.find(name) {
        return Some(address);
    }
    if let Some(address) = names.find(name) {
        return Some(address);
    }
    match symbol.binding {
        Binding::Weak => Some(0),
        Binding::Global | Binding::Local => None,
    }
}

fn value_of(room: &Room, own: &Symbols, names: &Symbols, symbol: &Symbol) -> Option<u32>
    requires { address_of room.now.base room.now.data_base symbol.now < 2 ^ 32 }
    ensures { result ≡ value_of room.now (find_in own.now) (find_in names.now) symbol.now }
{
    match symbol.place {
        Place::Undefined => named_value(own, names, symbol),
        Place::Absolute | Place::Text | Place::Data => {
            Some(address_of(room.base, room.data_base, symbol))
        }
    }
}

/// The value of each symbol, none where it is defined nowhere.
///
/// `exports` are the module's own, and `names` those of other modules.
pub fn values(
    alloc: Global,
    room: &Room,
    exports: &Items<(Name, u32)>,
    names: &Symbols,
    symbols: &[Symbol],
) -> Result<Vec<Option<u32>>, AllocError>
    requires { All (λ s. address_of room.now.base room.now.data_base s < 2 ^ 32) symbols.now }
    ensures { IfOk result (λ values. values.items
        ≡ values_by room.now (first_in exports.now) (find_in names.now) symbols.now) }
{
    let own = wanted_addresses(alloc, exports, symbols)?;
    let mut values = Vec::with_capacity(alloc, symbols.len())?;
    for symbol in symbols {
        values.push(value_of(room, &own, names, symbol))?;
    }
    Ok(values)
}
