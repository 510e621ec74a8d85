//! A type table.

ghost use Rattle.std.specs.Prelude.{◌≡◌, IfOk};

use crate::kind::is_callable_kind;
use crate::node::TypeNode;
use std::alloc::{AllocError, Global};
use std::marker::Model;

/// The nodes of a type table. A node names another by its number in the table, from 0.
#[derive(Debug, Drop)]
pub struct TypeTable {
    nodes: Vec<TypeNode>,
}

impl Model for TypeTable {
    ghost use Rattle.std.specs.Prelude.{List};
    ghost use Rattle.cfi_type_table.specs.Node.{Node};

    ghost Value = { List Node };

    ghost view = { λ t. t.nodes.items };
}

impl TypeTable {
    ghost use Rattle.cfi_type_table.specs.Kind.{is_callable};

    /// The table of these nodes.
    pub fn from_vec(nodes: Vec<TypeNode>) -> TypeTable
        ensures { result ≡ nodes.items }
    {
        TypeTable { nodes }
    }

    /// The table's nodes.
    pub fn nodes(&self) -> &[TypeNode]
        ensures { result.now ≡ self.now }
    {
        self.nodes.as_slice()
    }

    /// The table's nodes, without the table.
    pub fn into_vec(self) -> Vec<TypeNode>
        ensures { result.items ≡ self }
    {
        self.nodes
    }

    /// Whether the number is that of a node which is there and is the type of a function, with fixed or with variable
    /// arguments.
    pub fn is_callable(&self, number: u32) -> bool
        ensures { result ≡ is_callable self.now number }
    {
        let number = number as usize;
        number < self.nodes.len() && is_callable_kind(self.nodes[number].kind())
    }

    /// The same table in memory of its own.
    pub fn copied(&self, alloc: Global) -> Result<TypeTable, AllocError>
        ensures { IfOk result (λ table. table ≡ self.now) }
    {
        let mut nodes = Vec::with_capacity(alloc, self.nodes.len())?;
        for node in &self.nodes {
            nodes.push(node.copied(alloc)?)?;
        }
        Ok(TypeTable { nodes })
    }
}
