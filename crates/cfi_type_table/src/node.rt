//! One node of a type table.

ghost use Rattle.std.specs.Prelude.{◌≡◌, IfOk};

use crate::kind::count_numbers;
use std::alloc::{AllocError, Global};
use std::marker::Model;

/// A node of a type table: its kind, and its fields, each a number or the number of a node.
#[derive(Debug, Drop)]
pub struct TypeNode {
    kind: u32,
    fields: Vec<u32>,
}

impl Model for TypeNode {
    ghost use Rattle.cfi_type_table.specs.Node.{Node, make_node};

    ghost Value = { Node };

    ghost view = { λ x. make_node x.kind x.fields.items };
}

impl TypeNode {
    ghost use Rattle.cfi_type_table.specs.Node.{make_node};
    ghost use Rattle.cfi_type_table.specs.Kind.{numbers_of, nodes_of};

    /// The node of this kind and these fields.
    pub fn new(kind: u32, fields: Vec<u32>) -> TypeNode
        ensures { result ≡ make_node kind fields.items }
    {
        TypeNode { kind, fields }
    }

    /// The node's kind, such as `PTR`.
    pub fn kind(&self) -> u32
        ensures { result ≡ self.now.kind }
    {
        self.kind
    }

    /// The node's fields.
    pub fn fields(&self) -> &[u32]
        ensures { result.now ≡ self.now.fields }
    {
        self.fields.as_slice()
    }

    /// The node's fields, without the node.
    pub fn into_fields(self) -> Vec<u32>
        ensures { result.items ≡ self.fields }
    {
        self.fields
    }

    /// The node's numbers, and the nodes that it names.
    pub fn parts(&self) -> (&[u32], &[u32])
        ensures numbers { result.0.now ≡ numbers_of self.now }
        ensures nodes { result.1.now ≡ nodes_of self.now }
    {
        let fields = self.fields.as_slice();
        fields.split_at(count_numbers(self.kind).min(fields.len()))
    }

    // The same node in memory of its own.
    pub(crate) fn copied(&self, alloc: Global) -> Result<TypeNode, AllocError>
        ensures { IfOk result (λ node. node ≡ self.now) }
    {
        let fields = Vec::from_slice(alloc, self.fields.as_slice())?;
        Ok(TypeNode {
            kind: self.kind,
            fields,
        })
    }
}
