//! Which nodes are reached from a node.

ghost use Rattle.std.specs.Prelude.{◌<◌, length, vec_len, All, IfOk, OnOk};
ghost use Rattle.std.specs.List.{AllByRecursion};
ghost use Rattle.cfi_flow.specs.inner.Reach.{AreReached, AreClear, IsVisited, IsCleared};

use crate::rows::Rows;
use std::alloc::{AllocError, Global};

// Marks the nodes of a row, and adds those that were not marked before to the order.
fn visit(marks: &mut Vec<bool>, order: &mut Vec<u32>, row: &[u32]) -> Result<(), AllocError>
    requires { All (λ k. k < vec_len marks.old) row.now }
    ensures { OnOk result
        (IsVisited marks.old.items order.old.items row.now marks.new.items order.new.items) }
{
    for node in row {
        if !marks[*node as usize] {
            marks[*node as usize] = true;
            order.push(*node)?;
        }
    }
    Ok(())
}

// Takes away the marks of these nodes.
fn clear(marks: &mut Vec<bool>, nodes: &[u32])
    requires { All (λ k. k < vec_len marks.old) nodes.now }
    ensures { IsCleared marks.old.items nodes.now marks.new.items }
{
    for node in nodes {
        marks[*node as usize] = false;
    }
}

// The nodes that are reached from this one along arrows, itself too. No node is marked before, and none afterwards, so
// that a search costs no more than what it reaches.
pub(crate) fn reached(
    alloc: Global,
    marks: &mut Vec<bool>,
    arrows: &Rows,
    from: u32,
) -> Result<Vec<u32>, AllocError>
    requires from { from < length arrows.now }
    requires arrows { AllByRecursion (All (λ k. k < length arrows.now)) arrows.now }
    requires clear { AreClear (length arrows.now) marks.old.items }
    ensures reached { IfOk result (λ order. AreReached arrows.now from order.items) }
    ensures clear { OnOk result (AreClear (length arrows.now) marks.new.items) }
{
    let mut order = vec![in alloc; from]?;
    marks[from as usize] = true;
    let mut i = 0;
    while i < order.len() {
        let node = order[i];
        visit(marks, &mut order, arrows.row(node))?;
        i += 1;
    }
    clear(marks, order.as_slice());
    Ok(order)
}
