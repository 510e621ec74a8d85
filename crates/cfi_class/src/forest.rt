//! Nodes in trees, where two trees can become one: what was joined has one root.

ghost use Rattle.std.specs.Prelude.{◌≡◌, ℕ, ◌<◌, ◌≤◌, List, length, IfOk};
ghost use Rattle.cfi_class.specs.inner.Forest.{IsForest};

use std::alloc::{AllocError, Global};
use std::marker::Model;

/// Trees over the numbers from 0, by each node's parent: a root is its own parent, and the least node of its tree.
#[derive(Drop)]
pub(crate) struct Forest {
    parents: Vec<u32>,
}

// Clauses see the parents.
impl Model for Forest {
    ghost Value = { List ℕ };

    ghost view = { λ forest. forest.parents.items };

    ghost invariant = { λ forest. IsForest forest.parents.items };
}

impl Forest {
    ghost use Rattle.cfi_class.specs.inner.Forest.{HasSameRoots, root_of, joined_root};

    // So many nodes, each the root of a tree of its own.
    pub(crate) fn new(alloc: Global, nodes: u32) -> Result<Forest, AllocError>
        ensures forest { IfOk result IsForest }
        ensures len { IfOk result (λ forest. length forest ≡ nodes) }
        ensures roots { IfOk result (λ forest.
            (node : ℕ) → node < nodes → root_of forest node ≡ node) }
    {
        Ok(Forest {
            parents: (0..nodes).collect(alloc)?,
        })
    }

    // The root of the node's tree. On the way, each other node gets its parent's parent.
    pub(crate) fn root(&mut self, node: u32) -> u32
        requires { node < length self.old }
        ensures forest { IsForest self.new }
        ensures len { length self.new ≡ length self.old }
        ensures value { result ≡ root_of self.old node }
        ensures within { result ≤ node }
        ensures roots { HasSameRoots self.old self.new }
    {
        let mut at = node;
        loop {
            let parent = self.parents[at as usize];
            if parent == at {
                return at;
            }
            let next = self.parents[parent as usize];
            self.parents[at as usize] = next;
            at = next;
        }
    }

    // Makes one tree of the trees of two nodes.
    pub(crate) fn join(&mut self, one: u32, other: u32)
        requires one { one < length self.old }
        requires other { other < length self.old }
        ensures forest { IsForest self.new }
        ensures len { length self.new ≡ length self.old }
        ensures roots { (node : ℕ) → node < length self.old
            → root_of self.new node
            ≡ joined_root (root_of self.old one) (root_of self.old other) (root_of self.old node) }
    {
        let one = self.root(one);
        let other = self.root(other);
        self.parents[one.max(other) as usize] = one.min(other);
    }
}
