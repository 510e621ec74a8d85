//! Placed modules, and what the symbols of an object say of its functions.

ghost use Rattle.std.specs.Prelude.{◌≡◌, ◌<◌, ◌^◌, All, IfOk, IsTrue, length};
ghost use Rattle.cfi_aux.specs.Cells.{have_cells};
ghost use Rattle.cfi_aux.specs.Placed.{names_function, is_global, is_export, address_of, exports_of};

use crate::records::{Function, Kind};
use cfi_type_table::TypeTable;
use cfi_values::{Bytes, Items};
use elf_read::{Binding, Name, Place, Symbol, Symbols};
use std::alloc::{AllocError, Global};

/// A function of a placed module.
#[derive(Debug, Drop)]
pub struct PlacedFunction {
    /// Its first word, in words from the module's start.
    pub first: u32,
    /// How many words it has.
    pub count: u32,
    /// The number of its type's node, from 0.
    pub ty: u32,
    /// Whether its address is taken.
    pub taken: bool,
    /// Whether it is global: `is_global` of its record.
    pub global: bool,
    /// Its name.
    pub name: Name,
}

/// A module at its place: its relocations are done, and its checks name their slots.
#[derive(Debug, Drop)]
pub struct Placed {
    /// Where its text begins, in words of the code.
    pub base: u32,
    /// The slot of its first check.
    pub slot_base: u32,
    /// The address at which its data begins.
    pub data_base: u32,
    /// The words of its text.
    pub words: Items<u32>,
    /// The data that it starts with.
    pub static_data: Bytes,
    /// Its functions.
    pub functions: Items<PlacedFunction>,
    /// What its checks are, in the order of the text; a switch leads to bytes from the module's start.
    pub branches: Items<Kind>,
    /// The type table that its functions and branches name nodes of.
    pub types: TypeTable,
    /// The names that it defines for other modules, with their addresses: `exports` of its symbols.
    pub exports: Items<(Name, u32)>,
    /// The cell of each import is a whole word of the data.
    pub ghost cells: { IsTrue (have_cells (length static_data) branches) },
}

fn names_function(function: &Function, symbol: &Symbol) -> bool
    ensures { result ≡ names_function function.now symbol.now }
{
    symbol.binding == Binding::Global
        && symbol.place == Place::Text
        && symbol.value == function.offset
        && symbol.name.as_str() == function.name.as_str()
}

/// Whether the function is global: some global symbol of its name lies in the text where the function begins.
///
/// It goes over the symbols once.
pub fn is_global(symbols: &Symbols, function: &Function) -> bool
    ensures { result ≡ is_global symbols.now function.now }
{
    symbols
        .as_slice()
        .iter()
        .any(|symbol| names_function(function, symbol))
}

fn is_export(symbol: &Symbol) -> bool
    ensures { result ≡ is_export symbol.now }
{
    symbol.binding != Binding::Local && symbol.place != Place::Undefined
}

/// The address of a symbol, where its module's text begins at word `base` of the code and its data at the address
/// `data_base`: bytes from there in text and data, and else the symbol's value.
pub fn address_of(base: u32, data_base: u32, symbol: &Symbol) -> u32
    requires { address_of base data_base symbol.now < 2 ^ 32 }
    ensures { result ≡ address_of base data_base symbol.now }
{
    match symbol.place {
        Place::Text => 4 * base + symbol.value,
        Place::Data => data_base + symbol.value,
        Place::Absolute | Place::Undefined => symbol.value,
    }
}

/// The names that a module defines for other modules, with their addresses: its global and weak symbols that are
/// defined, in their order.
///
/// `base` and `data_base` are as `address_of` takes them.
pub fn exports(
    alloc: Global,
    symbols: &Symbols,
    base: u32,
    data_base: u32,
) -> Result<Items<(Name, u32)>, AllocError>
    requires { All (λ s. address_of base data_base s < 2 ^ 32) symbols.now }
    ensures { IfOk result (λ list. list ≡ exports_of base data_base symbols.now) }
{
    let mut list = Vec::new(alloc);
    for symbol in symbols.as_slice() {
        if is_export(symbol) {
            let name = Name::from_string(String::from_str(alloc, symbol.name.as_str())?);
            list.push((name, address_of(base, data_base, symbol)))?;
        }
    }
    Ok(Items::from_vec(list))
}
