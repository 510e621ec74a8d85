//! The edges of a flow.

ghost use Rattle.std.specs.Prelude.{◌≡◌, ◌*◌, ◌≤◌, ◌++◌, length, map, IfOk, OnOk};
ghost use Rattle.std.specs.List.{Contains};
ghost use Rattle.cfi_word.specs.declared.lists.Edge.{Edge};
ghost use Rattle.cfi_flow.specs.Flow.{IsSound, link_count};
ghost use Rattle.cfi_flow.specs.Fans.{link_edge, pairs_of, AreEdges, AreFewEdges};
ghost use Rattle.cfi_word.specs.Edge.{edge_of};
ghost use Rattle.cfi_flow.specs.Order.{AreInOrder};

use crate::fans::fans;
use crate::links::{Flow, Link};
use crate::ways::add_ways;
use cfi_word::Edge;
use std::alloc::{AllocError, Global};

// The edges of links.
pub(crate) fn edges_of(alloc: Global, links: &[Link]) -> Result<Vec<Edge>, AllocError>
    ensures { IfOk result (λ edges. edges.items ≡ map link_edge links.now) }
{
    links
        .iter()
        .map(|link| Edge {
            branch: link.from,
            target: link.to,
        })
        .collect(alloc)
}

// Adds the edges from a branch to these addresses.
fn add_from(edges: &mut Vec<Edge>, branch: u32, targets: &[u32]) -> Result<(), AllocError>
    ensures { OnOk result (edges.new.items ≡ edges.old.items ++ map (edge_of branch) targets.now) }
{
    for target in targets {
        edges.push(Edge {
            branch,
            target: *target,
        })?;
    }
    Ok(())
}

// Adds the edges from each of these branches to each of these addresses.
pub(crate) fn add_pairs(
    edges: &mut Vec<Edge>,
    slots: &[u32],
    targets: &[u32],
) -> Result<(), AllocError>
    ensures { OnOk result (edges.new.items ≡ edges.old.items ++ pairs_of slots.now targets.now) }
{
    for slot in slots {
        add_from(edges, *slot, targets)?;
    }
    Ok(())
}

// The same edges in order, each once.
pub(crate) fn in_order(mut edges: Vec<Edge>) -> Vec<Edge>
    ensures len { length result.items ≤ length edges.items }
    ensures kept { (e : Edge) → Contains edges.items e → Contains result.items e }
    ensures only { (e : Edge) → Contains result.items e → Contains edges.items e }
    ensures order { AreInOrder result.items }
{
    edges.sort_unstable();
    edges.dedup();
    edges
}

/// All edges of a flow, by slot and then by address, each once.
pub fn all_edges(alloc: Global, flow: &Flow) -> Result<Vec<Edge>, AllocError>
    requires { IsSound flow.now }
    ensures { IfOk result (λ edges. AreEdges flow.now edges.items) }
{
    let fans = fans(alloc, flow)?;
    let mut edges = edges_of(alloc, flow.listed.as_slice())?;
    for fan in &fans {
        add_pairs(&mut edges, fan.slots.as_slice(), fan.targets.as_slice())?;
    }
    Ok(in_order(edges))
}

/// Few edges of a flow, by slot and then by address, each once: a chain of them joins what any edge joins.
///
/// There are at most two for each link of the flow, and not one for each pair of a branch and an address; the work is
/// proportional to the nodes and the links, but for sorting.
pub fn few_edges(alloc: Global, flow: &Flow) -> Result<Vec<Edge>, AllocError>
    requires { IsSound flow.now }
    ensures edges { IfOk result (λ edges. AreFewEdges flow.now edges.items) }
    ensures few { IfOk result (λ edges. length edges.items ≤ 2 * link_count flow.now) }
{
    let mut edges = edges_of(alloc, flow.listed.as_slice())?;
    let (entries, pointers) = (flow.entries.as_slice(), flow.pointers.as_slice());
    let widenings = flow.widenings.as_slice();
    add_ways(alloc, &mut edges, flow.nodes, widenings, entries, pointers)?;
    let (sites, returns) = (flow.sites.as_slice(), flow.returns.as_slice());
    let arrows = flow.arrows.as_slice();
    add_ways(alloc, &mut edges, flow.nodes, arrows, sites, returns)?;
    Ok(in_order(edges))
}
