//! Few edges of what comes back from nodes.

ghost use Rattle.std.specs.Prelude.{◌≡◌, ◌<◌, ◌++◌, length, map, IfOk, OnOk};
ghost use Rattle.std.specs.List.{flat_map};
ghost use Rattle.cfi_flow.specs.Flow.{flipped, BeginBelow, AreBelow};
ghost use Rattle.cfi_flow.specs.inner.Ways.{between, return_edges, site_edges, arrow_edges, tied, AddsWays};

use crate::links::Link;
use crate::rows::rows_of;
use crate::spread::spread;
use cfi_word::Edge;
use std::alloc::{AllocError, Global};

// The links, each from its end to its beginning.
pub(crate) fn flipped(alloc: Global, links: &[Link]) -> Result<Vec<Link>, AllocError>
    ensures { IfOk result (λ others. others.items ≡ map flipped links.now) }
{
    links.iter().map(|link| link.flipped()).collect(alloc)
}

// Adds the edge from a branch to an address, where both are there.
fn add_between(
    edges: &mut Vec<Edge>,
    slot: Option<u32>,
    target: Option<u32>,
) -> Result<(), AllocError>
    ensures { OnOk result (edges.new.items ≡ edges.old.items ++ between slot target) }
{
    let Some(branch) = slot else {
        return Ok(());
    };
    let Some(target) = target else {
        return Ok(());
    };
    edges.push(Edge { branch, target })?;
    Ok(())
}

// Adds an edge of each branch that returns from a node, to what comes back from there.
fn add_returns(
    edges: &mut Vec<Edge>,
    returns: &[Link],
    places: &[Option<u32>],
) -> Result<(), AllocError>
    requires { BeginBelow (length places.now) returns.now }
    ensures { OnOk result
        (edges.new.items ≡ edges.old.items ++ flat_map (return_edges places.now) returns.now) }
{
    for link in returns {
        add_between(edges, Some(link.to), places[link.from as usize])?;
    }
    Ok(())
}

// Adds edges of a branch that returns from what a node gets to: to each address that comes back from the node, and to
// the one that it has by `places`.
fn add_sites(
    edges: &mut Vec<Edge>,
    sites: &[Link],
    places: &[Option<u32>],
    slots: &[Option<u32>],
) -> Result<(), AllocError>
    requires places { BeginBelow (length places.now) sites.now }
    requires slots { BeginBelow (length slots.now) sites.now }
    ensures { OnOk result (edges.new.items ≡
        edges.old.items ++ flat_map (site_edges places.now slots.now) sites.now) }
{
    for link in sites {
        let slot = slots[link.from as usize];
        add_between(edges, slot, Some(link.to))?;
        add_between(edges, slot, places[link.from as usize])?;
    }
    Ok(())
}

// Adds edges of a branch that returns from where an arrow leads: to the addresses of both its ends.
fn add_arrows(
    edges: &mut Vec<Edge>,
    arrows: &[Link],
    places: &[Option<u32>],
    slots: &[Option<u32>],
) -> Result<(), AllocError>
    requires places { AreBelow (length places.now) arrows.now }
    requires slots { AreBelow (length slots.now) arrows.now }
    ensures { OnOk result (edges.new.items ≡
        edges.old.items ++ flat_map (arrow_edges places.now slots.now) arrows.now) }
{
    for link in arrows {
        let slot = slots[link.to as usize];
        add_between(edges, slot, places[link.from as usize])?;
        add_between(edges, slot, places[link.to as usize])?;
    }
    Ok(())
}

// Adds all of these.
pub(crate) fn add_tied(
    edges: &mut Vec<Edge>,
    arrows: &[Link],
    sites: &[Link],
    returns: &[Link],
    places: &[Option<u32>],
    slots: &[Option<u32>],
) -> Result<(), AllocError>
    requires returns { BeginBelow (length places.now) returns.now }
    requires sites { BeginBelow (length places.now) sites.now }
    requires site_slots { BeginBelow (length slots.now) sites.now }
    requires arrows { AreBelow (length places.now) arrows.now }
    requires arrow_slots { AreBelow (length slots.now) arrows.now }
    ensures { OnOk result (edges.new.items ≡
        edges.old.items ++ tied arrows.now sites.now returns.now places.now slots.now) }
{
    add_returns(edges, returns, places)?;
    add_sites(edges, sites, places, slots)?;
    add_arrows(edges, arrows, places, slots)
}

// Adds few edges of what comes back from the nodes to the sites: at most two for each link.
//
// Each node has one address that comes back to what gets there, and one branch that returns from where it leads. These
// two stand for all others: an arrow ties those of its ends, a site its address, a return its branch.
fn add_some_ways(
    alloc: Global,
    edges: &mut Vec<Edge>,
    nodes: u32,
    arrows: &[Link],
    sites: &[Link],
    returns: &[Link],
) -> Result<(), AllocError>
    requires arrows { AreBelow nodes arrows.now }
    requires sites { BeginBelow nodes sites.now }
    requires returns { BeginBelow nodes returns.now }
    ensures { OnOk result
        (AddsWays arrows.now sites.now returns.now edges.old.items edges.new.items) }
{
    let forth = rows_of(alloc, nodes, arrows)?;
    let places = spread(alloc, &forth, sites)?;
    let flipped = flipped(alloc, arrows)?;
    let back = rows_of(alloc, nodes, flipped.as_slice())?;
    let slots = spread(alloc, &back, returns)?;
    let (places, slots) = (places.as_slice(), slots.as_slice());
    add_tied(edges, arrows, sites, returns, places, slots)?;
    Ok(())
}

// Adds such edges, without a look at the nodes where nothing enters one or nothing returns.
pub(crate) fn add_ways(
    alloc: Global,
    edges: &mut Vec<Edge>,
    nodes: u32,
    arrows: &[Link],
    sites: &[Link],
    returns: &[Link],
) -> Result<(), AllocError>
    requires arrows { AreBelow nodes arrows.now }
    requires sites { BeginBelow nodes sites.now }
    requires returns { BeginBelow nodes returns.now }
    ensures { OnOk result
        (AddsWays arrows.now sites.now returns.now edges.old.items edges.new.items) }
{
    if sites.is_empty() || returns.is_empty() {
        return Ok(());
    }
    add_some_ways(alloc, edges, nodes, arrows, sites, returns)
}
