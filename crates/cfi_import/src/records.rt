//! The types and the records of a module with stubs.

ghost use Rattle.std.specs.Prelude.{◌≡◌, ◌++◌, ◌≤◌, ◌<◌, map, length, OnOk, IfOk};
ghost use Rattle.std.specs.List.{enumerate_from};
ghost use Rattle.cfi_import.specs.Stubs.{stub_function, stub_kind, stub_nodes};
ghost use Rattle.cfi_import.specs.inner.Room.{HasRoom};

use crate::start::{STUB_BYTES, Start};
use cfi_aux::{Function, Kind, copied_name};
use cfi_type_table::{FUNC, TypeNode, VOID};
use elf_read::Name;
use std::alloc::{AllocError, Global};

/// Adds the type of stubs.
pub fn push_nodes(alloc: Global, out: &mut Vec<TypeNode>, start: Start) -> Result<(), AllocError>
    ensures { OnOk result (out.new.items ≡ out.old.items ++ stub_nodes start) }
{
    out.push(TypeNode::new(VOID, Vec::new(alloc)))?;
    out.push(TypeNode::new(FUNC, vec![in alloc; start.types]?))?;
    Ok(())
}

// The record of the stub of a place, which has this name.
fn stub_function(
    alloc: Global,
    start: Start,
    place: u32,
    name: &Name,
) -> Result<Function, AllocError>
    requires room { HasRoom start }
    requires there { place < start.count }
    ensures { IfOk result (λ made. made ≡ stub_function start (place, name.now)) }
{
    Ok(Function {
        offset: start.stub_offset(place),
        length: STUB_BYTES,
        ty: start.types + 1,
        taken: false,
        name: copied_name(alloc, name)?,
    })
}

/// Adds the records of the stubs of these names.
pub fn push_functions(
    alloc: Global,
    out: &mut Vec<Function>,
    start: Start,
    names: &[Name],
) -> Result<(), AllocError>
    requires room { HasRoom start }
    requires all { length names.now ≤ start.count }
    ensures { OnOk result (out.new.items
        ≡ out.old.items ++ map (stub_function start) (enumerate_from 0 names.now)) }
{
    for (place, name) in names.iter().enumerate() {
        out.push(stub_function(alloc, start, place as u32, name)?)?;
    }
    Ok(())
}

// What the jump of the stub of a place is, which has this name.
fn stub_kind(alloc: Global, start: Start, place: u32, name: &Name) -> Result<Kind, AllocError>
    requires room { HasRoom start }
    requires there { place < start.count }
    ensures { IfOk result (λ made. made ≡ stub_kind start (place, name.now)) }
{
    Ok(Kind::Import {
        name: copied_name(alloc, name)?,
        cell: start.cell_offset(place),
    })
}

/// Adds what the jumps of the stubs of these names are.
pub fn push_branches(
    alloc: Global,
    out: &mut Vec<Kind>,
    start: Start,
    names: &[Name],
) -> Result<(), AllocError>
    requires room { HasRoom start }
    requires all { length names.now ≤ start.count }
    ensures { OnOk result (out.new.items
        ≡ out.old.items ++ map (stub_kind start) (enumerate_from 0 names.now)) }
{
    for (place, name) in names.iter().enumerate() {
        out.push(stub_kind(alloc, start, place as u32, name)?)?;
    }
    Ok(())
}
