//! The direct edges of placed modules.

ghost use Rattle.std.specs.Prelude.{◌≡◌, ◌*◌, ◌-◌, ◌<◌, ◌≤◌, ◌^◌, length, map, IfOk};
ghost use Rattle.cfi_word.specs.declared.limits.TheConstants.{MAX_CODE_WORDS};
ghost use Rattle.cfi_flow.specs.Flow.{AreBelow, IsSound, link_count};
ghost use Rattle.cfi_graph.specs.Reading.{tables_of, node_count, HaveGraph};
ghost use Rattle.cfi_graph.specs.Links.{type_link};
ghost use Rattle.cfi_graph.specs.inner.Flows.{GoesAs};
ghost use Rattle.cfi_graph.specs.Edges.{AreDirectEdges, SpanDirectEdges, links_most};

use crate::fact::flow_by;
use crate::facts::facts_of;
use crate::imports::imports_of;
use cfi_aux::Placed;
use cfi_fits::widenings;
use cfi_flow::{Flow, Link, all_edges, few_edges};
use cfi_types::TypeBook;
use cfi_word::Edge;
use cfi_word::limits::MAX_CODE_WORDS;
use std::alloc::{AllocError, Global};

// The types of the modules.
pub(crate) fn book_of<'a>(alloc: Global, modules: &'a [Placed]) -> Result<TypeBook<'a>, AllocError>
    requires { HaveGraph modules.now }
    ensures { IfOk result (λ book. book ≡ tables_of modules.now) }
{
    let mut book = TypeBook::new(alloc);
    for placed in modules {
        book.add(&placed.types)?;
    }
    Ok(book)
}

// The links between the nodes of types, from those between their classes.
pub(crate) fn type_links(alloc: Global, links: &[Link]) -> Result<Vec<Link>, AllocError>
    requires { AreBelow (2 ^ 32 - MAX_CODE_WORDS) links.now }
    ensures { IfOk result (λ widenings. widenings.items ≡ map type_link links.now) }
{
    let mut widenings = Vec::new(alloc);
    for link in links {
        let from = MAX_CODE_WORDS + link.from;
        let to = MAX_CODE_WORDS + link.to;
        widenings.push(Link { from, to })?;
    }
    Ok(widenings)
}

// How many nodes the flow of the modules has.
pub(crate) fn node_count(modules: &[Placed]) -> u32
    requires { node_count modules.now < 2 ^ 32 }
    ensures { result ≡ node_count modules.now }
{
    let mut count = MAX_CODE_WORDS;
    for placed in modules {
        count += placed.types.nodes().len() as u32;
    }
    count
}

// The flow of the modules.
fn flow_of(alloc: Global, modules: &[Placed]) -> Result<Flow, AllocError>
    requires { HaveGraph modules.now }
    ensures sound { IfOk result IsSound }
    ensures goes { IfOk result (GoesAs modules.now) }
    ensures few { IfOk result (λ flow. link_count flow ≤ links_most modules.now) }
{
    let book = book_of(alloc, modules)?;
    let classes = book.classes()?;
    let wider = widenings(alloc, &book, &classes)?;
    let links = type_links(alloc, wider.as_slice())?;
    let imports = imports_of(alloc, modules)?;
    let facts = facts_of(alloc, modules, &imports, &classes)?;
    let nodes = node_count(modules);
    flow_by(alloc, facts.as_slice(), links, nodes)
}

/// The direct edges of the modules, by slot and then by address, each once.
///
/// An edge goes from a branch, told by its slot, to a code address in bytes. The modules are shaped and lie apart, in
/// the order of their places. The work is proportional to the modules and the edges; where calls enter functions from
/// which many functions are reached along tail calls, or to whose types many fit, to what is reached. MCFI (Niu and
/// Tan, PLDI 2014).
pub fn edges(alloc: Global, modules: &[Placed]) -> Result<Vec<Edge>, AllocError>
    requires { HaveGraph modules.now }
    ensures { IfOk result (λ edges. AreDirectEdges modules.now edges.items) }
{
    let flow = flow_of(alloc, modules)?;
    all_edges(alloc, &flow)
}

/// Some of the direct edges of the modules, by slot and then by address, each once: a chain of them joins what any
/// direct edge joins.
///
/// There are at most two for each word of code, four for each function, two for each entry of a switch and four for
/// each node of a type, and not one for each pair of a branch and an address. The work is proportional to the modules,
/// but for sorting. The modules are as `edges` takes them.
pub fn spanning(alloc: Global, modules: &[Placed]) -> Result<Vec<Edge>, AllocError>
    requires { HaveGraph modules.now }
    ensures edges { IfOk result (λ edges. SpanDirectEdges modules.now edges.items) }
    ensures few { IfOk result (λ edges. length edges.items ≤ 2 * links_most modules.now) }
{
    let flow = flow_of(alloc, modules)?;
    few_edges(alloc, &flow)
}
