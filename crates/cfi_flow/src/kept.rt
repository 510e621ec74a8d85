//! A flow that is kept while links are added, and few edges of it.

ghost use Rattle.std.specs.Prelude.{◌≡◌, ◌≤◌, ◌++◌, map, IfOk, OnOk};
ghost use Rattle.cfi_flow.specs.Fans.{link_edge};
ghost use Rattle.cfi_flow.specs.Flow.{IsSound};
ghost use Rattle.cfi_flow.specs.Kept.{no_flow, IsExtended, SpansFlow};

use crate::edges::edges_of;
use crate::kept_ways::KeptWays;
use crate::links::{Flow, Link};
use cfi_word::Edge;
use std::alloc::{AllocError, Global};
use std::marker::Model;

/// The links of a flow, to which more are added, and few edges of it.
///
/// Each node keeps one address that comes to it along arrows and one branch that returns from where they lead, once
/// there is one: a node is visited once for each over all additions.
#[derive(Debug, Drop)]
pub struct KeptFlow {
    nodes: u32,
    pointing: KeptWays,
    returning: KeptWays,
    listed: Vec<Link>,
    edges: Vec<Edge>,
}

// Clauses see the links and the edges.
impl Model for KeptFlow {
    ghost use Rattle.cfi_flow.specs.Kept.{Kept};
    ghost use Rattle.cfi_flow.specs.inner.KeptWays.{IsKeptFlow, kept_of};

    ghost Value = { Kept };

    ghost view = { λ k. kept_of k.nodes k.pointing k.returning k.listed.items k.edges.items };

    ghost invariant = { λ k.
        IsKeptFlow k.nodes k.pointing k.returning k.listed.items k.edges.items };
}

// Adds the edges of links.
fn add_listed(alloc: Global, edges: &mut Vec<Edge>, links: &[Link]) -> Result<(), AllocError>
    ensures { OnOk result (edges.new.items ≡ edges.old.items ++ map link_edge links.now) }
{
    let listed = edges_of(alloc, links)?;
    edges.extend_from_slice(listed.as_slice())?;
    Ok(())
}

impl KeptFlow {
    /// No nodes and no links. The value keeps the allocator.
    pub fn new(alloc: Global) -> KeptFlow
        ensures { result ≡ no_flow }
    {
        KeptFlow {
            nodes: 0,
            pointing: KeptWays::new(alloc),
            returning: KeptWays::new(alloc),
            listed: Vec::new(alloc),
            edges: Vec::new(alloc),
        }
    }

    /// A copy.
    pub fn copied(&self, alloc: Global) -> Result<KeptFlow, AllocError>
        ensures { IfOk result (λ flow. flow ≡ self.now) }
    {
        Ok(KeptFlow {
            nodes: self.nodes,
            pointing: self.pointing.copied(alloc)?,
            returning: self.returning.copied(alloc)?,
            listed: Vec::from_slice(alloc, &self.listed)?,
            edges: Vec::from_slice(alloc, &self.edges)?,
        })
    }

    /// The flow with further links: those of `more`, which has all nodes.
    ///
    /// The work is proportional to what is further and to the links of nodes to which something comes for the first
    /// time, but for room for the nodes.
    pub fn grown(self, alloc: Global, more: &Flow) -> Result<KeptFlow, AllocError>
        requires sound { IsSound more.now }
        requires nodes { self.nodes ≤ more.now.nodes }
        ensures { IfOk result (IsExtended self more.now) }
    {
        let nodes = more.nodes;
        let mut edges = self.edges;
        add_listed(alloc, &mut edges, &more.listed)?;
        let (widenings, entries, pointers) = (&more.widenings, &more.entries, &more.pointers);
        let pointing = self
            .pointing
            .grown(alloc, &mut edges, nodes, widenings, entries, pointers)?;
        let (arrows, sites, returns) = (&more.arrows, &more.sites, &more.returns);
        let returning = self
            .returning
            .grown(alloc, &mut edges, nodes, arrows, sites, returns)?;
        let mut listed = self.listed;
        listed.extend_from_slice(&more.listed)?;
        Ok(KeptFlow {
            nodes,
            pointing,
            returning,
            listed,
            edges,
        })
    }

    /// Few edges of the flow: each is one of its edges, and their chains join what any of its edges joins. Those of the
    /// flow before stand first.
    pub fn edges(&self) -> &[Edge]
        ensures value { result.now ≡ self.now.edges }
        ensures spans { SpansFlow self.now }
    {
        self.edges.as_slice()
    }
}
