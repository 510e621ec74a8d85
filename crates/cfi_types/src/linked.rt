//! The nodes of several tables as nodes of one list, which name one another by their numbers in the list. The tables
//! keep them: no field is copied.

ghost use Rattle.std.specs.Prelude.{◌≡◌, ◌<◌, length, slice_index};

use cfi_type_table::{TypeNode, TypeTable};
use std::marker::Model;

/// A type table that stands elsewhere.
#[derive(Debug, Drop)]
pub(crate) struct Lent<'a> {
    table: &'a TypeTable,
}

impl<'a> Model for Lent<'a> {
    ghost use Rattle.std.specs.Prelude.{List};
    ghost use Rattle.cfi_type_table.specs.Node.{Node};

    ghost Value = { List Node };

    ghost view = { λ t. t.table.now };
}

impl<'a> Lent<'a> {
    pub(crate) fn new(table: &'a TypeTable) -> Lent<'a>
        ensures { result ≡ table.now }
    {
        Lent { table }
    }

    // The same table once more.
    pub(crate) fn again(&self) -> Lent<'a>
        ensures { result ≡ self.now }
    {
        Lent { table: self.table }
    }

    // The table's nodes.
    pub(crate) fn nodes(&self) -> &'a [TypeNode]
        ensures { result.now ≡ self.now }
    {
        self.table.nodes()
    }
}

/// The nodes that a node names, by their numbers in the list.
#[derive(Drop)]
pub(crate) struct Named<'a> {
    start: u32,
    words: &'a [u32],
}

impl<'a> Model for Named<'a> {
    ghost use Rattle.std.specs.Prelude.{ℕ, ◌+◌, ◌<◌, ◌^◌, List, map, All};

    ghost Value = { List ℕ };

    ghost view = { λ n. map (λ k. n.start + k) n.words.now };

    ghost invariant = { λ n. All (λ k. n.start + k < 2 ^ 32) n.words.now };
}

impl<'a> Named<'a> {
    // How many they are.
    pub(crate) fn len(&self) -> usize
        ensures { result ≡ length self.now }
    {
        self.words.len()
    }

    // The one of this place, from 0.
    pub(crate) fn at(&self, place: usize) -> u32
        requires { place < length self.now }
        ensures { result ≡ slice_index self.now place }
    {
        self.start + self.words[place]
    }
}

/// A node of a table, in a list in which its table begins at `start`.
#[derive(Drop)]
pub(crate) struct Linked<'a> {
    start: u32,
    node: &'a TypeNode,
}

impl<'a> Model for Linked<'a> {
    ghost use Rattle.std.specs.Prelude.{◌+◌, ◌<◌, ◌^◌, All};
    ghost use Rattle.cfi_type_table.specs.Node.{Node};
    ghost use Rattle.cfi_type_table.specs.Kind.{nodes_of};
    ghost use Rattle.cfi_types.specs.inner.Joined.{shifted};

    ghost Value = { Node };

    ghost view = { λ x. shifted x.start x.node.now };

    ghost invariant = { λ x. All (λ k. x.start + k < 2 ^ 32) (nodes_of x.node.now) };
}

impl<'a> Linked<'a> {
    ghost use Rattle.std.specs.Prelude.{◌+◌, ◌<◌, ◌^◌, All};
    ghost use Rattle.cfi_type_table.specs.Kind.{numbers_of, nodes_of};
    ghost use Rattle.cfi_types.specs.inner.Joined.{shifted};

    // The node, in a list in which its table begins at `start`.
    pub(crate) fn new(node: &'a TypeNode, start: u32) -> Linked<'a>
        requires { All (λ k. start + k < 2 ^ 32) (nodes_of node.now) }
        ensures { result ≡ shifted start node.now }
    {
        Linked { start, node }
    }

    // The node's kind.
    pub(crate) fn kind(&self) -> u32
        ensures { result ≡ self.now.kind }
    {
        self.node.kind()
    }

    // The node's numbers, and the nodes that it names.
    pub(crate) fn parts(&self) -> (&[u32], Named<'a>)
        ensures numbers { result.0.now ≡ numbers_of self.now }
        ensures nodes { result.1 ≡ nodes_of self.now }
    {
        let (numbers, words) = self.node.parts();
        let named = Named {
            start: self.start,
            words,
        };
        (numbers, named)
    }
}
