//! What comes along arrows to each node, while arrows and seeds are added.

ghost use Rattle.std.specs.Prelude.{◌≡◌, ◌++◌, ◌<◌, ◌≤◌, ℕ, List, length, map, vec_len, IfOk, OnOk};
ghost use Rattle.std.specs.List.{Contains, flat_map};
ghost use Rattle.cfi_flow.specs.declared.links.Link.{Link as TheLink};
ghost use Rattle.cfi_flow.specs.Flow.{AreBelow, BeginBelow};
ghost use Rattle.cfi_flow.specs.inner.Spread.{tag_of};
ghost use Rattle.cfi_flow.specs.inner.Tagged.{AreTagged, AreSpreadOn, carried_by};

use crate::links::Link;
use crate::spread::{begin, visit};
use crate::star::Star;
use std::alloc::{AllocError, Global};

// Makes places for more nodes, which have no tags.
pub(crate) fn make_nodes(tags: &mut Vec<Option<u32>>, nodes: u32) -> Result<(), AllocError>
    requires { vec_len tags.old ≤ nodes }
    ensures len { OnOk result (length tags.new.items ≡ nodes) }
    ensures same { OnOk result ((node : ℕ) →
        tag_of tags.new.items node ≡ tag_of tags.old.items node) }
{
    tags.resize(nodes as usize, None)?;
    Ok(())
}

// Where the links lead.
fn ends(alloc: Global, links: &[Link]) -> Result<Vec<u32>, AllocError>
    ensures { IfOk result (λ ends. ends.items ≡ map (λ link. link.to) links.now) }
{
    links.iter().map(|link| link.to).collect(alloc)
}

// What arrows carry on from nodes that have tags.
fn carried(alloc: Global, tags: &[Option<u32>], arrows: &[Link]) -> Result<Vec<Link>, AllocError>
    requires { BeginBelow (length tags.now) arrows.now }
    ensures { IfOk result (λ seeds. seeds.items ≡ flat_map (carried_by tags.now) arrows.now) }
{
    let mut seeds = Vec::new(alloc);
    for link in arrows {
        if let Some(tag) = tags[link.from as usize] {
            seeds.push(Link {
                from: link.to,
                to: tag,
            })?;
        }
    }
    Ok(seeds)
}

// Tags the nodes to which further arrows and seeds bring something, and gives them in order with their tags.
//
// `star` has all arrows, the further ones among them. Each node is visited once over all calls, so that it costs no
// more than what is further and the arrows from nodes that had no tag.
pub(crate) fn spread_on(
    alloc: Global,
    star: &Star,
    tags: &mut Vec<Option<u32>>,
    arrows: &[Link],
    seeds: &[Link],
) -> Result<Vec<Link>, AllocError>
    requires all { AreBelow (vec_len tags.old) star.now }
    requires arrows { AreBelow (vec_len tags.old) arrows.now }
    requires seeds { BeginBelow (vec_len tags.old) seeds.now }
    ensures len { IfOk result (λ order. length tags.new.items ≡ length tags.old.items) }
    ensures ok { IfOk result (λ order. (before sown : List TheLink) →
        star.now ≡ before ++ arrows.now → AreTagged before sown tags.old.items →
        AreSpreadOn star.now (sown ++ seeds.now) tags.old.items tags.new.items order.items) }
{
    let carried = carried(alloc, tags.as_slice(), arrows)?;
    let mut order = Vec::new(alloc);
    begin(tags, &mut order, seeds)?;
    begin(tags, &mut order, carried.as_slice())?;
    let mut i = 0;
    while i < order.len() {
        let link = order[i];
        let mut row = Vec::new(alloc);
        star.add_from(&mut row, link.from)?;
        let ends = ends(alloc, row.as_slice())?;
        visit(tags, &mut order, ends.as_slice(), link.to)?;
        i += 1;
    }
    Ok(order)
}
