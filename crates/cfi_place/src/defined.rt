//! Whether each relocation has a value.

ghost use Rattle.std.specs.Prelude.{◌≡◌, None, Result, IfOk, IfErr, OnOk};
ghost use Rattle.cfi_place.specs.declared.fault.PlaceFault.{PlaceFault};
ghost use Rattle.cfi_place.specs.Value.{value_at, name_at, undefined_in};
ghost use Rattle.cfi_place.specs.Relocated.{Areas};
ghost use Rattle.cfi_place.specs.Placed.{IsFault, unless_undefined};

use crate::fault::PlaceFault;
use elf_read::{Name, Reloc, Symbol};
use std::alloc::{AllocError, Global};

/// The value that a relocation takes: 0 where it has no symbol, none where that is defined nowhere.
pub fn value_at(values: &[Option<u32>], reloc: &Reloc) -> Option<u32>
    ensures { result ≡ value_at values.now reloc.now.symbol }
{
    match reloc.symbol {
        None => Some(0),
        Some(k) => *values.get(k as usize)?,
    }
}

// The name of a relocation's symbol.
fn name_at(alloc: Global, symbols: &[Symbol], reloc: &Reloc) -> Result<Name, AllocError>
    ensures { IfOk result (λ name. name ≡ name_at symbols.now reloc.now.symbol) }
{
    let mut name = String::new(alloc);
    if let Some(k) = reloc.symbol {
        if let Some(symbol) = symbols.get(k as usize) {
            name.push_str(symbol.name.as_str())?;
        }
    }
    Ok(Name::from_string(name))
}

/// Refuses the first relocation without a value, by the name of its symbol.
pub fn check_defined(
    alloc: Global,
    symbols: &[Symbol],
    values: &[Option<u32>],
    relocs: &[Reloc],
) -> Result<(), PlaceFault>
    ensures ok { OnOk result (undefined_in symbols.now values.now relocs.now ≡ None) }
    ensures fault { IfErr result (λ fault. (next : Result Areas PlaceFault) →
        IsFault fault (unless_undefined (undefined_in symbols.now values.now relocs.now) next)) }
{
    for reloc in relocs {
        if value_at(values, reloc).is_none() {
            return Err(PlaceFault::Undefined(name_at(alloc, symbols, reloc)?));
        }
    }
    Ok(())
}
