//! The edges of a flow.

ghost use Rattle.std.specs.Prelude.{◌<◌, IfOk, OnOk};
ghost use Rattle.cfi_flow.specs.Flow.{BeginBelow, AreBelow, IsSound};

use cfi_flow::{Flow, Link, all_edges, few_edges};
use cfi_word::Edge;
use std::alloc::{AllocError, Global};

// Adds an arrow between two nodes at the end.
fn put_arrow(links: &mut Vec<Link>, from: u32, to: u32) -> Result<(), AllocError>
    requires from { from < 4 }
    requires to { to < 4 }
    requires before { AreBelow 4 links.old.items }
    ensures { OnOk result (AreBelow 4 links.new.items) }
{
    links.push(Link { from, to })?;
    Ok(())
}

// Adds a link that begins at a node at the end.
fn put(links: &mut Vec<Link>, from: u32, to: u32) -> Result<(), AllocError>
    requires from { from < 4 }
    requires before { BeginBelow 4 links.old.items }
    ensures { OnOk result (BeginBelow 4 links.new.items) }
{
    links.push(Link { from, to })?;
    Ok(())
}

// The arrows among these pairs, between nodes below 4.
fn arrows_of(alloc: Global, rows: &[(u32, u32)]) -> Result<Vec<Link>, AllocError>
    ensures { IfOk result (λ links. AreBelow 4 links.items) }
{
    let mut links = Vec::new(alloc);
    for row in rows {
        let (from, to) = *row;
        if from < 4 && to < 4 {
            put_arrow(&mut links, from, to)?;
        }
    }
    Ok(links)
}

// The links among these pairs that begin at nodes below 4.
fn links_of(alloc: Global, rows: &[(u32, u32)]) -> Result<Vec<Link>, AllocError>
    ensures { IfOk result (λ links. BeginBelow 4 links.items) }
{
    let mut links = Vec::new(alloc);
    for row in rows {
        let (from, to) = *row;
        if from < 4 {
            put(&mut links, from, to)?;
        }
    }
    Ok(links)
}

// A flow whose one pointer, slot 0, leads to what node 3 stands for, and whose slot 1 may go to 0x44.
fn flow_of(
    alloc: Global,
    arrows: &[(u32, u32)],
    sites: &[(u32, u32)],
    returns: &[(u32, u32)],
    entries: &[(u32, u32)],
) -> Result<Flow, AllocError>
    ensures { IfOk result (λ flow. IsSound flow) }
{
    Ok(Flow {
        nodes: 4,
        arrows: arrows_of(alloc, arrows)?,
        sites: links_of(alloc, sites)?,
        returns: links_of(alloc, returns)?,
        pointers: links_of(alloc, &[(3, 0)])?,
        widenings: arrows_of(alloc, &[])?,
        entries: links_of(alloc, entries)?,
        listed: links_of(alloc, &[(1, 0x44)])?,
    })
}

fn edges_are(edges: &[Edge], expected: &[(u32, u32)]) -> bool {
    edges.len() == expected.len()
        && edges.iter().zip(expected).all(|(edge, pair)| edge.branch == pair.0
            && edge.target == pair.1)
}

/// Nodes 1 and 2 tail call each other; each returns, and each is called twice: a few edges join all.
pub fn edges_of_tail_calls(alloc: Global) -> Result<bool, AllocError> {
    let arrows = [(1, 2), (2, 1)];
    let sites = [(1, 0x44), (1, 0x48)];
    let returns = [(1, 1), (2, 2)];
    let flow = flow_of(alloc, &arrows, &sites, &returns, &[])?;
    let all = [(1, 0x44), (1, 0x48), (2, 0x44), (2, 0x48)];
    let few = [(1, 0x44), (1, 0x48), (2, 0x44)];
    Ok(
        edges_are(all_edges(alloc, &flow)?.as_slice(), &all)
            && edges_are(few_edges(alloc, &flow)?.as_slice(), &few),
    )
}
