//! What the units and functions of a module tell of where control may go.

ghost use Rattle.std.specs.Prelude.{◌≡◌, ◌++◌, map, IfOk};
ghost use Rattle.std.specs.List.{filter_map};
ghost use Rattle.cfi_flow.specs.Flow.{flipped};
ghost use Rattle.cfi_graph.specs.inner.Flows.{arrow_in, site_in, return_in, pointer_in, entry_in, listed_in, IsFlowOf};

use cfi_flow::{Flow, Link};
use std::alloc::{AllocError, Global};

/// How many words a check has.
pub(crate) const CHECK_WORDS: u32 = cfi_word::sizes::CHECK_WORDS as u32;

/// A link of a flow, by what it tells: a list of the flow for each.
#[derive(Clone, Copy, Debug, PartialEq, Eq)]
pub(crate) enum Fact {
    /// A function gets to a node without a call, or a node of a type stands for a function.
    Arrow(Link),
    /// A call that enters a node comes back to an address.
    Site(Link),
    /// A function has a branch that returns.
    Return(Link),
    /// A branch goes through a pointer to a type's node.
    Pointer(Link),
    /// A pointer to a type's node may lead to an address.
    Entry(Link),
    /// A branch lists an address.
    Listed(Link),
}

fn arrow_in(fact: &Fact) -> Option<Link>
    ensures { result ≡ arrow_in fact.now }
{
    match fact {
        Fact::Arrow(link) => Some(*link),
        _ => None,
    }
}

fn site_in(fact: &Fact) -> Option<Link>
    ensures { result ≡ site_in fact.now }
{
    match fact {
        Fact::Site(link) => Some(*link),
        _ => None,
    }
}

fn return_in(fact: &Fact) -> Option<Link>
    ensures { result ≡ return_in fact.now }
{
    match fact {
        Fact::Return(link) => Some(*link),
        _ => None,
    }
}

fn pointer_in(fact: &Fact) -> Option<Link>
    ensures { result ≡ pointer_in fact.now }
{
    match fact {
        Fact::Pointer(link) => Some(*link),
        _ => None,
    }
}

fn entry_in(fact: &Fact) -> Option<Link>
    ensures { result ≡ entry_in fact.now }
{
    match fact {
        Fact::Entry(link) => Some(*link),
        _ => None,
    }
}

fn listed_in(fact: &Fact) -> Option<Link>
    ensures { result ≡ listed_in fact.now }
{
    match fact {
        Fact::Listed(link) => Some(*link),
        _ => None,
    }
}

fn told_arrows(alloc: Global, facts: &[Fact]) -> Result<Vec<Link>, AllocError>
    ensures { IfOk result (λ links. links.items ≡ filter_map arrow_in facts.now) }
{
    facts
        .iter()
        .filter_map(|fact| arrow_in(fact))
        .collect(alloc)
}

// The arrows that are told, and those from wider types to narrower ones.
fn arrows(alloc: Global, facts: &[Fact], widenings: &[Link]) -> Result<Vec<Link>, AllocError>
    ensures { IfOk result (λ links. links.items ≡
        filter_map arrow_in facts.now ++ map flipped widenings.now) }
{
    let mut arrows = told_arrows(alloc, facts)?;
    for link in widenings {
        arrows.push(link.flipped())?;
    }
    Ok(arrows)
}

fn sites(alloc: Global, facts: &[Fact]) -> Result<Vec<Link>, AllocError>
    ensures { IfOk result (λ links. links.items ≡ filter_map site_in facts.now) }
{
    facts.iter().filter_map(|fact| site_in(fact)).collect(alloc)
}

fn returns(alloc: Global, facts: &[Fact]) -> Result<Vec<Link>, AllocError>
    ensures { IfOk result (λ links. links.items ≡ filter_map return_in facts.now) }
{
    facts
        .iter()
        .filter_map(|fact| return_in(fact))
        .collect(alloc)
}

fn pointers(alloc: Global, facts: &[Fact]) -> Result<Vec<Link>, AllocError>
    ensures { IfOk result (λ links. links.items ≡ filter_map pointer_in facts.now) }
{
    facts
        .iter()
        .filter_map(|fact| pointer_in(fact))
        .collect(alloc)
}

fn entries(alloc: Global, facts: &[Fact]) -> Result<Vec<Link>, AllocError>
    ensures { IfOk result (λ links. links.items ≡ filter_map entry_in facts.now) }
{
    facts
        .iter()
        .filter_map(|fact| entry_in(fact))
        .collect(alloc)
}

fn listed(alloc: Global, facts: &[Fact]) -> Result<Vec<Link>, AllocError>
    ensures { IfOk result (λ links. links.items ≡ filter_map listed_in facts.now) }
{
    facts
        .iter()
        .filter_map(|fact| listed_in(fact))
        .collect(alloc)
}

// The flow of these facts, over so many nodes, and of links from types' nodes to wider ones.
pub(crate) fn flow_by(
    alloc: Global,
    facts: &[Fact],
    widenings: Vec<Link>,
    nodes: u32,
) -> Result<Flow, AllocError>
    ensures { IfOk result (IsFlowOf facts.now widenings.items nodes) }
{
    Ok(Flow {
        nodes,
        arrows: arrows(alloc, facts, widenings.as_slice())?,
        sites: sites(alloc, facts)?,
        returns: returns(alloc, facts)?,
        pointers: pointers(alloc, facts)?,
        entries: entries(alloc, facts)?,
        widenings,
        listed: listed(alloc, facts)?,
    })
}
