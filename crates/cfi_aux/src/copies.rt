//! Copies of what a module has, each in memory of its own.

ghost use Rattle.std.specs.Prelude.{◌≡◌, IfOk};

use crate::placed::{Placed, PlacedFunction};
use crate::records::Kind;
use cfi_values::{Bytes, Items};
use elf_read::Name;
use std::alloc::{AllocError, Global};

/// The same name.
pub fn copied_name(alloc: Global, name: &Name) -> Result<Name, AllocError>
    ensures { IfOk result (λ made. made ≡ name.now) }
{
    Ok(Name::from_string(String::from_str(alloc, name.as_str())?))
}

/// The same bytes.
pub fn copied_bytes(alloc: Global, bytes: &Bytes) -> Result<Bytes, AllocError>
    ensures { IfOk result (λ made. made ≡ bytes.now) }
{
    Ok(Bytes::from_vec(Vec::from_slice(alloc, bytes.as_slice())?))
}

fn copied_kind(alloc: Global, kind: &Kind) -> Result<Kind, AllocError>
    ensures { IfOk result (λ made. made ≡ kind.now) }
{
    Ok(match kind {
        Kind::Call(node) => Kind::Call(*node),
        Kind::Tail(node) => Kind::Tail(*node),
        Kind::Return => Kind::Return,
        Kind::Switch(entries) => {
            Kind::Switch(Items::from_vec(Vec::from_slice(alloc, entries.as_slice())?))
        }
        Kind::Import { name, cell } => Kind::Import {
            name: copied_name(alloc, name)?,
            cell: *cell,
        },
    })
}

/// The same branches.
pub fn copied_branches(alloc: Global, branches: &[Kind]) -> Result<Vec<Kind>, AllocError>
    ensures { IfOk result (λ made. made.items ≡ branches.now) }
{
    let mut made = Vec::with_capacity(alloc, branches.len())?;
    for kind in branches {
        made.push(copied_kind(alloc, kind)?)?;
    }
    Ok(made)
}

fn copied_function(alloc: Global, function: &PlacedFunction) -> Result<PlacedFunction, AllocError>
    ensures { IfOk result (λ made. made ≡ function.now) }
{
    Ok(PlacedFunction {
        first: function.first,
        count: function.count,
        ty: function.ty,
        taken: function.taken,
        global: function.global,
        name: copied_name(alloc, &function.name)?,
    })
}

fn copied_functions(
    alloc: Global,
    functions: &[PlacedFunction],
) -> Result<Vec<PlacedFunction>, AllocError>
    ensures { IfOk result (λ made. made.items ≡ functions.now) }
{
    let mut made = Vec::with_capacity(alloc, functions.len())?;
    for function in functions {
        made.push(copied_function(alloc, function)?)?;
    }
    Ok(made)
}

fn copied_exports(alloc: Global, exports: &[(Name, u32)]) -> Result<Vec<(Name, u32)>, AllocError>
    ensures { IfOk result (λ made. made.items ≡ exports.now) }
{
    let mut made = Vec::with_capacity(alloc, exports.len())?;
    for export in exports {
        made.push((copied_name(alloc, &export.0)?, export.1))?;
    }
    Ok(made)
}

/// The same placed module.
pub fn copied_placed(alloc: Global, placed: &Placed) -> Result<Placed, AllocError>
    ensures { IfOk result (λ made. made ≡ placed.now) }
{
    let words = Vec::from_slice(alloc, placed.words.as_slice())?;
    let functions = copied_functions(alloc, placed.functions.as_slice())?;
    let branches = copied_branches(alloc, placed.branches.as_slice())?;
    let exports = copied_exports(alloc, placed.exports.as_slice())?;
    Ok(Placed {
        base: placed.base,
        slot_base: placed.slot_base,
        data_base: placed.data_base,
        words: Items::from_vec(words),
        static_data: copied_bytes(alloc, &placed.static_data)?,
        functions: Items::from_vec(functions),
        branches: Items::from_vec(branches),
        types: placed.types.copied(alloc)?,
        exports: Items::from_vec(exports),
    })
}
