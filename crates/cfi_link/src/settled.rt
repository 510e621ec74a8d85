//! The symbols of the output.

ghost use Rattle.std.specs.Prelude.{◌≡◌, ◌<◌, ◌^◌, length, IfOk};
ghost use Rattle.cfi_link.specs.Chosen.{is_local_symbol, settled_symbol, settled, in_order};
ghost use Rattle.cfi_link.specs.inner.Kept.{chosen_by};

use crate::chosen::Definitions;
use elf_read::{Binding, Place, Symbol};
use std::alloc::{AllocError, Global};

/// Whether a symbol is local.
pub fn is_local(symbol: &Symbol) -> bool
    ensures { result ≡ is_local_symbol symbol.now }
{
    symbol.binding == Binding::Local
}

// The symbol of a number, a reference where it is a definition that is not chosen.
fn settled_symbol(definitions: &Definitions, number: u32, symbol: Symbol) -> Symbol
    ensures { result ≡ settled_symbol (chosen_by definitions.now) (number, symbol) }
{
    if !definitions.loses(number, &symbol) {
        return symbol;
    }
    Symbol {
        name: symbol.name,
        binding: symbol.binding,
        place: Place::Undefined,
        value: 0,
    }
}

/// Symbols, of which the definitions that are not chosen become references.
pub fn settled(
    alloc: Global,
    definitions: &Definitions,
    symbols: Vec<Symbol>,
) -> Result<Vec<Symbol>, AllocError>
    requires { length symbols.items < 2 ^ 32 }
    ensures { IfOk result (λ made. made.items ≡ settled (chosen_by definitions.now) symbols.items) }
{
    let mut made = Vec::with_capacity(alloc, symbols.len())?;
    let mut k = 0;
    for symbol in symbols {
        made.push(settled_symbol(definitions, k, symbol))?;
        k += 1;
    }
    Ok(made)
}

/// Symbols in their order, but local ones before all others.
pub fn in_order(alloc: Global, symbols: Vec<Symbol>) -> Result<Vec<Symbol>, AllocError>
    ensures { IfOk result (λ made. made.items ≡ in_order symbols.items) }
{
    let mut locals = Vec::with_capacity(alloc, symbols.len())?;
    let mut others = Vec::new(alloc);
    for symbol in symbols {
        if is_local(&symbol) {
            locals.push(symbol)?;
        } else {
            others.push(symbol)?;
        }
    }
    for symbol in others {
        locals.push(symbol)?;
    }
    Ok(locals)
}
