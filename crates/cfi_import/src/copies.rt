//! Copies of what a module has, each in memory of its own.

ghost use Rattle.std.specs.Prelude.{◌≡◌, ◌++◌, OnOk, IfOk};

use cfi_aux::{Function, copied_bytes, copied_name};
use cfi_values::Bytes;
use elf_read::Symbol;
use std::alloc::{AllocError, Global};

/// The same bytes, where there are any.
pub fn copied_section(alloc: Global, section: &Option<Bytes>) -> Result<Option<Bytes>, AllocError>
    ensures { IfOk result (λ made. made ≡ section.now) }
{
    match section {
        None => Ok(None),
        Some(bytes) => Ok(Some(copied_bytes(alloc, bytes)?)),
    }
}

fn copied_symbol(alloc: Global, symbol: &Symbol) -> Result<Symbol, AllocError>
    ensures { IfOk result (λ made. made ≡ symbol.now) }
{
    Ok(Symbol {
        name: copied_name(alloc, &symbol.name)?,
        binding: symbol.binding,
        place: symbol.place,
        value: symbol.value,
    })
}

/// Adds these symbols.
pub fn push_symbols(
    alloc: Global,
    out: &mut Vec<Symbol>,
    symbols: &[Symbol],
) -> Result<(), AllocError>
    ensures { OnOk result (out.new.items ≡ out.old.items ++ symbols.now) }
{
    for symbol in symbols {
        out.push(copied_symbol(alloc, symbol)?)?;
    }
    Ok(())
}

fn copied_function(alloc: Global, function: &Function) -> Result<Function, AllocError>
    ensures { IfOk result (λ made. made ≡ function.now) }
{
    Ok(Function {
        offset: function.offset,
        length: function.length,
        ty: function.ty,
        taken: function.taken,
        name: copied_name(alloc, &function.name)?,
    })
}

/// The same functions.
pub fn copied_functions(alloc: Global, functions: &[Function]) -> Result<Vec<Function>, AllocError>
    ensures { IfOk result (λ made. made.items ≡ functions.now) }
{
    let mut made = Vec::with_capacity(alloc, functions.len())?;
    for function in functions {
        made.push(copied_function(alloc, function)?)?;
    }
    Ok(made)
}
