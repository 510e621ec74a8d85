//! Where the symbols of joined modules lead in their text.

ghost use Rattle.std.specs.Prelude.{◌≡◌, ◌<◌, ◌^◌, length, IfOk};
ghost use Rattle.cfi_link.specs.Chosen.{text_value, chosen_value, settled_symbol, reach_of, reaches_of};
ghost use Rattle.cfi_link.specs.inner.Kept.{chosen_by};

use crate::chosen::Definitions;
use elf_read::{Place, Symbol};
use std::alloc::{AllocError, Global};

// The value of a symbol in text.
fn text_value(symbol: &Symbol) -> Option<u32>
    ensures { result ≡ text_value symbol.now }
{
    match symbol.place {
        Place::Text => Some(symbol.value),
        Place::Data | Place::Absolute | Place::Undefined => None,
    }
}

// That of the symbol of a number.
fn chosen_value(symbols: &[Symbol], number: Option<u32>) -> Option<u32>
    ensures { result ≡ chosen_value symbols.now number }
{
    text_value(symbols.get(number? as usize)?)
}

// Where the symbol of a number leads; a definition that is not chosen leads to the one that is.
fn reach_of(
    symbols: &[Symbol],
    definitions: &Definitions,
    number: u32,
    symbol: &Symbol,
) -> Option<u32>
    ensures { result ≡ reach_of symbols.now (chosen_by definitions.now)
        (settled_symbol (chosen_by definitions.now) (number, symbol.now)) }
{
    if symbol.place == Place::Undefined || definitions.loses(number, symbol) {
        return chosen_value(symbols, definitions.find(symbol.name.as_str()));
    }
    text_value(symbol)
}

/// Where each symbol leads in the text, none where it leads elsewhere.
pub fn reaches_of(
    alloc: Global,
    definitions: &Definitions,
    symbols: &[Symbol],
) -> Result<Vec<Option<u32>>, AllocError>
    requires { length symbols.now < 2 ^ 32 }
    ensures { IfOk result (λ reaches.
        reaches.items ≡ reaches_of (chosen_by definitions.now) symbols.now) }
{
    let mut reaches = Vec::with_capacity(alloc, symbols.len())?;
    for (k, symbol) in symbols.iter().enumerate() {
        reaches.push(reach_of(symbols, definitions, k as u32, symbol))?;
    }
    Ok(reaches)
}
