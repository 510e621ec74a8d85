//! Cells of late imports, of modules that are written by hand.

ghost use Rattle.std.specs.Prelude.{◌≡◌, ◌<◌, All, IfOk, IsTrue, length};
ghost use Rattle.cfi_graph.specs.Cell.{HasData};

use crate::made::jump;
use cfi_aux::{Kind, Placed};
use cfi_graph::cells;
use cfi_type_table::TypeTable;
use cfi_values::{Bytes, Items};
use elf_read::Name;
use std::alloc::{AllocError, Global};

// A module of an import alone, whose cell is the second word of its data.
fn importer(alloc: Global) -> Result<Placed, AllocError>
    ensures { IfOk result HasData }
{
    let name = Name::from_string(String::from_str(alloc, "f")?);
    Ok(Placed {
        base: 17,
        slot_base: 0,
        data_base: 0x4000_0010,
        words: Items::from_vec(Vec::new(alloc)),
        static_data: Bytes::from_vec(vec![in alloc; 0, 0, 0, 0, 0, 0, 0, 0]?),
        functions: Items::from_vec(Vec::new(alloc)),
        branches: Items::from_vec(vec![in alloc; Kind::Import { name, cell: 4 }]?),
        types: TypeTable::from_vec(Vec::new(alloc)),
        exports: Items::from_vec(Vec::new(alloc)),
    })
}

/// The cell of a name that no live module has, by hand: four zero bytes at its place.
pub fn lost(alloc: Global) -> Result<bool, AllocError> {
    let live = vec![in alloc; jump(alloc, 16, 0)?]?;
    let modules = vec![in alloc; importer(alloc)?]?;
    let found = cells(alloc, live.as_slice(), modules.as_slice())?;
    let zero = [0, 0, 0, 0];
    Ok(found.len() == 1 && found[0].at == 0x4000_0014 && found[0].bytes.as_slice() == &zero[..])
}
