//! The edges of a flow that are none of a part of it.

ghost use Rattle.std.specs.Prelude.{◌≡◌, ◌↔◌, ℕ, IsTrue, IfOk, OnOk, map};
ghost use Rattle.std.specs.List.{Contains};
ghost use Rattle.std.specs.List.Sorted.{IsNonDecreasing};
ghost use Rattle.cfi_flow.specs.Flow.{IsSound};
ghost use Rattle.cfi_flow.specs.Fresh.{IsPartOf, IsToldOnce, AreOthers, AreFreshEdges};
ghost use Rattle.cfi_flow.specs.inner.Others.{CanBeSearched, AddsOthers, AddsFresh};
ghost use Rattle.cfi_flow.specs.Fans.{link_edge};
ghost use Rattle.cfi_word.specs.declared.lists.Edge.{Edge as FlowEdge};

use crate::edges::{add_pairs, edges_of, in_order};
use crate::fan::Fan;
use crate::fans::{flow_rows, node_fans};
use crate::links::{Flow, Link};
use cfi_word::Edge;
use std::alloc::{AllocError, Global};

// Whether the number is one of these.
fn is_known(known: &[u32], number: u32) -> bool
    requires { IsNonDecreasing known.now }
    ensures { IsTrue result ↔ Contains known.now number }
{
    known.binary_search(&number).is_ok()
}

// These numbers in order.
fn sorted(alloc: Global, numbers: &[u32]) -> Result<Vec<u32>, AllocError>
    ensures order { IfOk result (λ sorted. IsNonDecreasing sorted.items) }
    ensures same { IfOk result (λ sorted. (x : ℕ)
        → Contains sorted.items x ↔ Contains numbers.now x) }
{
    let mut sorted = Vec::from_slice(alloc, numbers)?;
    sorted.sort_unstable();
    Ok(sorted)
}

// Those of the numbers that are none of the known ones.
fn others(alloc: Global, numbers: &[u32], known: &[u32]) -> Result<Vec<u32>, AllocError>
    ensures { IfOk result (λ others. AreOthers numbers.now known.now others.items) }
{
    let known = sorted(alloc, known)?;
    let mut others = Vec::new(alloc);
    for number in numbers {
        if !is_known(known.as_slice(), *number) {
            others.push(*number)?;
        }
    }
    Ok(others)
}

// The edges of links, in order.
fn sorted_edges(alloc: Global, links: &[Link]) -> Result<Vec<Edge>, AllocError>
    ensures order { IfOk result (λ sorted. CanBeSearched sorted.items) }
    ensures same { IfOk result (λ sorted. (e : FlowEdge)
        → Contains sorted.items e ↔ Contains (map link_edge links.now) e) }
{
    let mut sorted = edges_of(alloc, links)?;
    sorted.sort_unstable();
    Ok(sorted)
}

// Whether the edge is one of these.
fn is_known_edge(known: &[Edge], edge: &Edge) -> bool
    requires { CanBeSearched known.now }
    ensures { IsTrue result ↔ Contains known.now edge.now }
{
    known.binary_search(edge).is_ok()
}

/// Those of the links that are none of the known ones, in their order.
pub fn other_links(alloc: Global, links: &[Link], known: &[Link]) -> Result<Vec<Link>, AllocError>
    ensures { IfOk result (λ others. AreOthers links.now known.now others.items) }
{
    let known = sorted_edges(alloc, known)?;
    let mut others = Vec::new(alloc);
    for link in links {
        let edge = Edge {
            branch: link.from,
            target: link.to,
        };
        if !is_known_edge(known.as_slice(), &edge) {
            others.push(*link)?;
        }
    }
    Ok(others)
}

// The edges of those links that are none of the known ones.
fn other_edges(alloc: Global, links: &[Link], known: &[Link]) -> Result<Vec<Edge>, AllocError>
    ensures { IfOk result (λ others. AreOthers
        (map link_edge links.now) (map link_edge known.now) others.items) }
{
    let others = other_links(alloc, links, known)?;
    edges_of(alloc, others.as_slice())
}

// Adds the edges of a fan that are none of a known one.
fn add_others(
    alloc: Global,
    edges: &mut Vec<Edge>,
    fan: &Fan,
    known: &Fan,
) -> Result<(), AllocError>
    ensures { OnOk result (AddsOthers edges.old.items fan.now known.now edges.new.items) }
{
    let (all_slots, all_targets) = (fan.slots.as_slice(), fan.targets.as_slice());
    let slots = others(alloc, all_slots, known.slots.as_slice())?;
    let targets = others(alloc, all_targets, known.targets.as_slice())?;
    add_pairs(edges, slots.as_slice(), all_targets)?;
    add_pairs(edges, all_slots, targets.as_slice())?;
    Ok(())
}

// Adds the edges by way of each node that are none by way of it in the known flow.
fn add_fresh(
    alloc: Global,
    edges: &mut Vec<Edge>,
    flow: &Flow,
    known: &Flow,
) -> Result<(), AllocError>
    requires sound { IsSound flow.now }
    requires known { IsSound known.now }
    requires nodes { known.now.nodes ≡ flow.now.nodes }
    ensures { OnOk result
        (AddsFresh known.now flow.now flow.now.nodes edges.old.items edges.new.items) }
{
    let (rows, known_rows) = (flow_rows(alloc, flow)?, flow_rows(alloc, known)?);
    let mut marks = vec![in alloc; false; rows.arrows.count()]?;
    for node in 0..flow.nodes {
        let (points, backs) = node_fans(alloc, &mut marks, &rows, node)?;
        let (known_points, known_backs) = node_fans(alloc, &mut marks, &known_rows, node)?;
        add_others(alloc, edges, &points, &known_points)?;
        add_others(alloc, edges, &backs, &known_backs)?;
    }
    Ok(())
}

/// The edges of a flow that are none of a known one, which is part of it: by slot and then by address, each once.
///
/// The edges of the known flow are not made. What a node reaches is looked at in both flows.
pub fn fresh_edges(alloc: Global, flow: &Flow, known: &Flow) -> Result<Vec<Edge>, AllocError>
    requires sound { IsSound flow.now }
    requires part { IsPartOf known.now flow.now }
    requires once { IsToldOnce flow.now }
    ensures { IfOk result (λ edges. AreFreshEdges known.now flow.now edges.items) }
{
    let mut edges = other_edges(alloc, flow.listed.as_slice(), known.listed.as_slice())?;
    add_fresh(alloc, &mut edges, flow, known)?;
    Ok(in_order(edges))
}
