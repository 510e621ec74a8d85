//! What comes along arrows to each node.

ghost use Rattle.std.specs.Prelude.{◌<◌, length, vec_len, All, IfOk, OnOk};
ghost use Rattle.std.specs.List.{AllByRecursion};
ghost use Rattle.cfi_flow.specs.Flow.{BeginBelow};
ghost use Rattle.cfi_flow.specs.inner.Spread.{AreSpread, AreBegun, IsTagged};

use crate::links::Link;
use crate::rows::Rows;
use std::alloc::{AllocError, Global};

// Gives the tag to the nodes of a row that have none, and adds these to the order, each with its tag.
pub(crate) fn visit(
    tags: &mut Vec<Option<u32>>,
    order: &mut Vec<Link>,
    row: &[u32],
    tag: u32,
) -> Result<(), AllocError>
    requires { All (λ k. k < vec_len tags.old) row.now }
    ensures { OnOk result
        (IsTagged tags.old.items order.old.items row.now tag tags.new.items order.new.items) }
{
    for node in row {
        if tags[*node as usize].is_none() {
            tags[*node as usize] = Some(tag);
            order.push(Link {
                from: *node,
                to: tag,
            })?;
        }
    }
    Ok(())
}

// Gives each node at which seeds begin the end of one of them. No node has a tag before.
pub(crate) fn begin(
    tags: &mut Vec<Option<u32>>,
    order: &mut Vec<Link>,
    seeds: &[Link],
) -> Result<(), AllocError>
    requires { BeginBelow (vec_len tags.old) seeds.now }
    ensures { OnOk result
        (AreBegun tags.old.items order.old.items seeds.now tags.new.items order.new.items) }
{
    for seed in seeds {
        visit(tags, order, &[seed.from], seed.to)?;
    }
    Ok(())
}

// For each node the end of a seed, of some that begin at nodes from which arrows lead there, where there is one.
//
// Each node is visited once, so that it costs no more than the nodes, the arrows and the seeds.
pub(crate) fn spread(
    alloc: Global,
    arrows: &Rows,
    seeds: &[Link],
) -> Result<Vec<Option<u32>>, AllocError>
    requires arrows { AllByRecursion (All (λ k. k < length arrows.now)) arrows.now }
    requires seeds { BeginBelow (length arrows.now) seeds.now }
    ensures { IfOk result (λ tags. AreSpread arrows.now seeds.now tags.items) }
{
    let mut tags = vec![in alloc; None; arrows.count()]?;
    let mut order = Vec::new(alloc);
    begin(&mut tags, &mut order, seeds)?;
    let mut i = 0;
    while i < order.len() {
        let link = order[i];
        visit(&mut tags, &mut order, arrows.row(link.from), link.to)?;
        i += 1;
    }
    Ok(tags)
}
