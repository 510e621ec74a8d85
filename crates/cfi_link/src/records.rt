//! Records of a module, shifted to where it begins. Sums are taken in 32 bits.

ghost use Rattle.std.specs.Prelude.{◌≡◌, ◌++◌, map, IfOk, OnOk};
ghost use Rattle.cfi_link.specs.Joined.{shifted, function_at, branch_at};

use crate::start::Start;
use cfi_aux::{Function, Kind};
use cfi_values::Items;
use elf_read::Name;
use std::alloc::{AllocError, Global};

fn function_at(alloc: Global, start: Start, function: &Function) -> Result<Function, AllocError>
    ensures { IfOk result (λ made. made ≡ function_at start function.now) }
{
    let name = String::from_str(alloc, function.name.as_str())?;
    Ok(Function {
        offset: function.offset.wrapping_add(start.text),
        length: function.length,
        ty: function.ty.wrapping_add(start.types),
        taken: function.taken,
        name: Name::from_string(name),
    })
}

/// Adds the functions of a module.
pub fn push_functions(
    alloc: Global,
    out: &mut Vec<Function>,
    start: Start,
    functions: &[Function],
) -> Result<(), AllocError>
    ensures { OnOk result (out.new.items ≡ out.old.items ++ map (function_at start) functions.now) }
{
    for function in functions {
        out.push(function_at(alloc, start, function)?)?;
    }
    Ok(())
}

fn entries_at(alloc: Global, start: Start, entries: &[u32]) -> Result<Vec<u32>, AllocError>
    ensures { IfOk result (λ made. made.items ≡ map (shifted start.text) entries.now) }
{
    let mut made = Vec::with_capacity(alloc, entries.len())?;
    for entry in entries {
        made.push(entry.wrapping_add(start.text))?;
    }
    Ok(made)
}

fn branch_at(alloc: Global, start: Start, branch: &Kind) -> Result<Kind, AllocError>
    ensures { IfOk result (λ made. made ≡ branch_at start branch.now) }
{
    Ok(match branch {
        Kind::Call(node) => Kind::Call(node.wrapping_add(start.types)),
        Kind::Tail(node) => Kind::Tail(node.wrapping_add(start.types)),
        Kind::Return => Kind::Return,
        Kind::Switch(entries) => {
            Kind::Switch(Items::from_vec(entries_at(alloc, start, entries.as_slice())?))
        }
        Kind::Import { name, cell } => Kind::Import {
            name: Name::from_string(String::from_str(alloc, name.as_str())?),
            cell: cell.wrapping_add(start.static_data),
        },
    })
}

/// Adds the branches of a module.
pub fn push_branches(
    alloc: Global,
    out: &mut Vec<Kind>,
    start: Start,
    branches: &[Kind],
) -> Result<(), AllocError>
    ensures { OnOk result (out.new.items ≡ out.old.items ++ map (branch_at start) branches.now) }
{
    for branch in branches {
        out.push(branch_at(alloc, start, branch)?)?;
    }
    Ok(())
}
