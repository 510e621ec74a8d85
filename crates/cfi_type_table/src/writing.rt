//! Writes a type table as bytes.

ghost use Rattle.std.specs.Prelude.{◌≡◌, ◌<◌, ◌^◌, List, ◌++◌, length, All, OnOk, IfOk, Ok};
ghost use Rattle.cfi_type_table.specs.Node.{Node};
ghost use Rattle.cfi_type_table.specs.Spelling.{node_bytes, spelling, AreTypes};
ghost use Rattle.cfi_type_table.specs.Reading.{types_in};

use crate::node::TypeNode;
use crate::table::TypeTable;
use std::alloc::{AllocError, Global};

fn put_node(out: &mut Vec<u8>, node: &TypeNode) -> Result<(), AllocError>
    requires { length node.now.fields < 2 ^ 32 }
    ensures { OnOk result (out.new.items ≡ out.old.items ++ node_bytes node.now) }
{
    out.extend_from_slice(&node.kind().to_le_bytes())?;
    let fields = node.fields();
    out.extend_from_slice(&(fields.len() as u32).to_le_bytes())?;
    for field in fields {
        out.extend_from_slice(&field.to_le_bytes())?;
    }
    Ok(())
}

/// The bytes that spell the table. `read_types` reads a table from them where it is one.
///
/// The number of nodes, and of fields of a node, is below 2^32.
pub fn write_types(alloc: Global, table: &TypeTable) -> Result<Vec<u8>, AllocError>
    requires nodes { length table.now < 2 ^ 32 }
    requires fields { All (λ x. length x.fields < 2 ^ 32) table.now }
    ensures { IfOk result (λ bytes. bytes.items ≡ spelling table.now) }
{
    let mut out = Vec::new(alloc);
    let nodes = table.nodes();
    out.extend_from_slice(&(nodes.len() as u32).to_le_bytes())?;
    for node in nodes {
        put_node(&mut out, node)?;
    }
    Ok(out)
}

/// What is written is read again, whatever the table.
pub fn written_is_read()
    ensures { (xs : List Node) → AreTypes xs → types_in (spelling xs) ≡ Ok xs }
{}

/// Each table that is read can be written.
pub fn read_can_be_written()
    ensures nodes { (xs : List Node) → AreTypes xs → length xs < 2 ^ 32 }
    ensures fields { (xs : List Node) → AreTypes xs → All (λ x. length x.fields < 2 ^ 32) xs }
{}
