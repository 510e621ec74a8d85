//! Few edges of what comes back from nodes, while links are added.

ghost use Rattle.std.specs.Prelude.{◌≡◌, ◌≤◌, [], length, IfOk, OnOk};
ghost use Rattle.cfi_flow.specs.Flow.{AreBelow, BeginBelow};
ghost use Rattle.cfi_flow.specs.inner.KeptWays.{IsLongerSide, AreTouched, AreTouchedArrows, AreKeptWays, AreAmong};
ghost use Rattle.cfi_flow.specs.inner.KeptWays.{AddsTouched, AddsLongerWays};

use crate::links::Link;
use crate::star::Star;
use crate::tagged::{make_nodes, spread_on};
use crate::ways::{add_tied, flipped};
use cfi_word::Edge;
use std::alloc::{AllocError, Global};
use std::marker::Model;

/// What comes along arrows from seeds to each node.
#[derive(Debug, Drop)]
pub(crate) struct Side {
    arrows: Star,
    seeds: Star,
    tags: Vec<Option<u32>>,
}

impl Model for Side {
    ghost use Rattle.cfi_flow.specs.inner.KeptWays.{Side, IsSide};

    ghost Value = { Side };

    ghost view = { λ s. record { arrows = s.arrows; seeds = s.seeds; tags = s.tags.items } };

    ghost invariant = { λ s.
        IsSide (record { arrows = s.arrows; seeds = s.seeds; tags = s.tags.items }) };
}

/// What comes back from nodes along arrows: addresses come with them, and branches against them.
#[derive(Debug, Drop)]
pub(crate) struct KeptWays {
    forth: Side,
    back: Side,
}

impl Model for KeptWays {
    ghost use Rattle.cfi_flow.specs.inner.KeptWays.{Ways, AreKeptWays as KeepsWays};

    ghost Value = { Ways };

    ghost view = { λ w. record { forth = w.forth; back = w.back } };

    ghost invariant = { λ w. KeepsWays (record { forth = w.forth; back = w.back }) };
}

// Further links, and of the links of a star those that begin at a node that is changed.
fn touched(star: &Star, fresh: Vec<Link>, changes: &[Link]) -> Result<Vec<Link>, AllocError>
    ensures { IfOk result (λ list. AreTouched star.now fresh.items changes.now list.items) }
{
    let mut list = fresh;
    for change in changes {
        star.add_from(&mut list, change.from)?;
    }
    Ok(list)
}

impl Side {
    // No links.
    fn new(alloc: Global) -> Side
        ensures arrows { result.arrows ≡ [] }
        ensures seeds { result.seeds ≡ [] }
        ensures tags { result.tags ≡ [] }
    {
        Side {
            arrows: Star::new(alloc),
            seeds: Star::new(alloc),
            tags: Vec::new(alloc),
        }
    }

    // A copy.
    fn copied(&self, alloc: Global) -> Result<Side, AllocError>
        ensures { IfOk result (λ side. side ≡ self.now) }
    {
        Ok(Side {
            arrows: self.arrows.copied(alloc)?,
            seeds: self.seeds.copied(alloc)?,
            tags: Vec::from_slice(alloc, &self.tags)?,
        })
    }

    // The side with further arrows and seeds, over so many nodes, and the nodes whose tags are new.
    fn grown(
        self,
        alloc: Global,
        nodes: u32,
        arrows: &[Link],
        seeds: &[Link],
    ) -> Result<(Side, Vec<Link>), AllocError>
        requires nodes { length self.tags ≤ nodes }
        requires arrows { AreBelow nodes arrows.now }
        requires seeds { BeginBelow nodes seeds.now }
        ensures { IfOk result (λ both.
            IsLongerSide self nodes arrows.now seeds.now both.0 both.1.items) }
    {
        let all = self.arrows.grown(arrows)?;
        let mut tags = self.tags;
        make_nodes(&mut tags, nodes)?;
        let changes = spread_on(alloc, &all, &mut tags, arrows, seeds)?;
        let side = Side {
            arrows: all,
            seeds: self.seeds.grown(seeds)?,
            tags,
        };
        Ok((side, changes))
    }
}

// Further arrows, and those that begin or end at a node that is changed.
fn touched_arrows(
    alloc: Global,
    forth: &Star,
    back: &Star,
    arrows: &[Link],
    changes: &[Link],
) -> Result<Vec<Link>, AllocError>
    ensures { IfOk result (λ list.
        AreTouchedArrows forth.now back.now arrows.now changes.now list.items) }
{
    let mut list = touched(forth, Vec::from_slice(alloc, arrows)?, changes)?;
    let ends = touched(back, Vec::new(alloc), changes)?;
    let turned = flipped(alloc, ends.as_slice())?;
    list.extend_from_slice(turned.as_slice())?;
    Ok(list)
}

// Adds the edges that tie what is touched: further links, and those with a node that is changed.
fn add_touched(
    alloc: Global,
    edges: &mut Vec<Edge>,
    forth: &Side,
    back: &Side,
    arrows: &[Link],
    sites: &[Link],
    returns: &[Link],
    changes: &[Link],
) -> Result<(), AllocError>
    requires kept { AreKeptWays (record { forth = forth.now; back = back.now }) }
    requires arrows { AreAmong forth.now.arrows arrows.now }
    requires sites { AreAmong forth.now.seeds sites.now }
    requires returns { AreAmong back.now.seeds returns.now }
    ensures { OnOk result (AddsTouched (record { forth = forth.now; back = back.now })
        arrows.now sites.now returns.now changes.now edges.old.items edges.new.items) }
{
    let arrows = touched_arrows(alloc, &forth.arrows, &back.arrows, arrows, changes)?;
    let sites = touched(&forth.seeds, Vec::from_slice(alloc, sites)?, changes)?;
    let returns = touched(&back.seeds, Vec::from_slice(alloc, returns)?, changes)?;
    add_tied(
        edges,
        arrows.as_slice(),
        sites.as_slice(),
        returns.as_slice(),
        forth.tags.as_slice(),
        back.tags.as_slice(),
    )?;
    Ok(())
}

impl KeptWays {
    // No links.
    pub(crate) fn new(alloc: Global) -> KeptWays
        ensures forth { result.forth ≡ record { arrows = []; seeds = []; tags = [] } }
        ensures back { result.back ≡ record { arrows = []; seeds = []; tags = [] } }
    {
        KeptWays {
            forth: Side::new(alloc),
            back: Side::new(alloc),
        }
    }

    // A copy.
    pub(crate) fn copied(&self, alloc: Global) -> Result<KeptWays, AllocError>
        ensures { IfOk result (λ ways. ways ≡ self.now) }
    {
        Ok(KeptWays {
            forth: self.forth.copied(alloc)?,
            back: self.back.copied(alloc)?,
        })
    }

    // The ways with further links, over so many nodes; adds the edges that tie these beside those before.
    pub(crate) fn grown(
        self,
        alloc: Global,
        edges: &mut Vec<Edge>,
        nodes: u32,
        arrows: &[Link],
        sites: &[Link],
        returns: &[Link],
    ) -> Result<KeptWays, AllocError>
        requires nodes { length self.forth.tags ≤ nodes }
        requires arrows { AreBelow nodes arrows.now }
        requires sites { BeginBelow nodes sites.now }
        requires returns { BeginBelow nodes returns.now }
        ensures kept { IfOk result AreKeptWays }
        ensures nodes { IfOk result (λ ways. length ways.forth.tags ≡ nodes) }
        ensures ways { IfOk result (λ ways. AddsLongerWays self arrows.now sites.now returns.now
            ways edges.old.items edges.new.items) }
    {
        let turned = flipped(alloc, arrows)?;
        let (forth, mut changes) = self.forth.grown(alloc, nodes, arrows, sites)?;
        let (back, others) = self.back.grown(alloc, nodes, turned.as_slice(), returns)?;
        changes.extend_from_slice(others.as_slice())?;
        add_touched(
            alloc,
            edges,
            &forth,
            &back,
            arrows,
            sites,
            returns,
            changes.as_slice(),
        )?;
        Ok(KeptWays { forth, back })
    }
}
