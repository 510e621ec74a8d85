//! The nodes of several tables as one list.

ghost use Rattle.std.specs.Prelude.{◌≡◌, ◌+◌, ◌<◌, ◌^◌, ◌++◌, length, map, vec_len, IfOk, OnOk};
ghost use Rattle.std.specs.List.{flat_map, AllByRecursion};
ghost use Rattle.cfi_type_table.specs.Spelling.{NamesBelow, AreTypes};
ghost use Rattle.cfi_types.specs.inner.Joined.{shifted, joined_from};

use crate::linked::{Lent, Linked};
use cfi_type_table::TypeNode;
use std::alloc::{AllocError, Global};

// Adds the nodes of a table at the end.
fn add_table<'a>(out: &mut Vec<Linked<'a>>, nodes: &'a [TypeNode]) -> Result<(), AllocError>
    requires fits { vec_len out.old + length nodes.now < 2 ^ 32 }
    requires closed { AllByRecursion (NamesBelow (length nodes.now)) nodes.now }
    ensures { OnOk result
        (out.new.items ≡ out.old.items ++ map (shifted (vec_len out.old)) nodes.now) }
{
    let start = out.len() as u32;
    for node in nodes {
        out.push(Linked::new(node, start))?;
    }
    Ok(())
}

// The tables' nodes, one table after the other; a node names another by its number in the list.
pub(crate) fn join<'a>(alloc: Global, tables: &[Lent<'a>]) -> Result<Vec<Linked<'a>>, AllocError>
    requires fits { length (flat_map (λ xs. xs) tables.now) < 2 ^ 32 }
    requires types { AllByRecursion AreTypes tables.now }
    ensures { IfOk result (λ nodes. nodes.items ≡ joined_from 0 tables.now) }
{
    let mut nodes = Vec::new(alloc);
    for table in tables {
        add_table(&mut nodes, table.nodes())?;
    }
    Ok(nodes)
}
