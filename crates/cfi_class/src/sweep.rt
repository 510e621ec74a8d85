//! One pass over the edges: which slots and code words they link, and which slots have one.

ghost use Rattle.std.specs.Prelude.{◌+◌, ◌<◌, ◌^◌, All, IfOk};
ghost use Rattle.cfi_class.specs.Labels.{HasEdge, IsEdgeWithin};
ghost use Rattle.cfi_class.specs.inner.Linked.{IsForestOf};
ghost use Rattle.cfi_class.specs.inner.Numbering.{MarksUsed};

use crate::forest::Forest;
use cfi_word::Edge;
use std::alloc::{AllocError, Global};

// The forest of the slots and then the code words, with one tree for all that edges link.
pub(crate) fn forest_of(
    alloc: Global,
    edges: &[Edge],
    slots: u32,
    code_words: u32,
) -> Result<Forest, AllocError>
    requires fits { slots + code_words < 2 ^ 32 }
    requires within { All (IsEdgeWithin slots code_words) edges.now }
    ensures { IfOk result (IsForestOf (HasEdge edges.now) slots code_words) }
{
    let mut forest = Forest::new(alloc, slots + code_words)?;
    for edge in edges {
        forest.join(edge.branch, slots + edge.target / 4);
    }
    Ok(forest)
}

// By slot, whether an edge leaves it.
pub(crate) fn used_slots(
    alloc: Global,
    edges: &[Edge],
    slots: u32,
    code_words: u32,
) -> Result<Vec<bool>, AllocError>
    requires { All (IsEdgeWithin slots code_words) edges.now }
    ensures { IfOk result (λ marks. MarksUsed (HasEdge edges.now) slots marks.items) }
{
    let mut used = vec![in alloc; false; slots as usize]?;
    for edge in edges {
        used[edge.branch as usize] = true;
    }
    Ok(used)
}
