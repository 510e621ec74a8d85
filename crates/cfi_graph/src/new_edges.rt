//! The direct edges that one module more brings.

ghost use Rattle.std.specs.Prelude.{◌≡◌, ℕ, ◌<◌, ◌≤◌, ◌^◌, ◌++◌, ◌∷◌, [], List, length, map, IfOk};
ghost use Rattle.std.specs.List.{Contains};
ghost use Rattle.cfi_flow.specs.Flow.{AreBelow};
ghost use Rattle.cfi_types.specs.Classes.{AreClasses};
ghost use Rattle.cfi_graph.specs.Facts.{AreFacts, AreImports};
ghost use Rattle.cfi_graph.specs.NewEdges.{AreNewEdges};
ghost use Rattle.cfi_graph.specs.Reading.{tables_of, node_count, HaveGraph, CanAllBeRead};
ghost use Rattle.cfi_graph.specs.inner.NewEdges.{HaveFlows};
ghost use Rattle.cfi_graph.specs.inner.Imports.{imports_in};

use crate::direct::{book_of, node_count, type_links};
use crate::fact::{Fact, flow_by};
use crate::facts::{add_module, facts_of};
use crate::imports::{Imports, imports_of};
use cfi_aux::Placed;
use cfi_fits::widenings;
use cfi_flow::{Flow, fresh_edges};
use cfi_types::{Classes, TypeBook};
use cfi_word::Edge;
use std::alloc::{AllocError, Global};

// The types of the modules and of one more.
pub(crate) fn book_with<'a>(
    alloc: Global,
    old: &'a [Placed],
    new: &'a Placed,
) -> Result<TypeBook<'a>, AllocError>
    requires { HaveGraph (old.now ++ new.now ∷ []) }
    ensures { IfOk result (λ book. book ≡ tables_of (old.now ++ new.now ∷ [])) }
{
    let mut book = book_of(alloc, old)?;
    book.add(&new.types)?;
    Ok(book)
}

// How many nodes their flow has.
pub(crate) fn node_count_with(old: &[Placed], new: &Placed) -> u32
    requires { node_count (old.now ++ new.now ∷ []) < 2 ^ 32 }
    ensures { result ≡ node_count (old.now ++ new.now ∷ []) }
{
    node_count(old) + new.types.nodes().len() as u32
}

// The facts that they tell.
fn facts_with(
    alloc: Global,
    old: &[Placed],
    new: &Placed,
    imports: &Imports,
    classes: &Classes,
) -> Result<Vec<Fact>, AllocError>
    requires few { length (old.now ++ new.now ∷ []) < 2 ^ 32 }
    requires read { CanAllBeRead classes.now (old.now ++ new.now ∷ []) }
    ensures { IfOk result (λ facts. AreFacts
        (old.now ++ new.now ∷ []) (imports_in imports.now) classes.now facts.items) }
{
    let mut facts = facts_of(alloc, old, imports, classes)?;
    add_module(alloc, &mut facts, imports, classes, old.len() as u32, new)?;
    Ok(facts)
}

// The flow of all of them, and that of the modules without the last, over the same nodes.
fn flows_of(
    alloc: Global,
    old: &[Placed],
    new: &Placed,
    classes: &Classes,
) -> Result<(Flow, Flow), AllocError>
    requires graph { HaveGraph (old.now ++ new.now ∷ []) }
    requires classes { AreClasses (tables_of (old.now ++ new.now ∷ [])) classes.now }
    ensures { IfOk result (λ both. HaveFlows old.now (old.now ++ new.now ∷ []) both.0 both.1) }
{
    let book = book_with(alloc, old, new)?;
    let wider = widenings(alloc, &book, classes)?;
    let nodes = node_count_with(old, new);
    let mut imports = imports_of(alloc, old)?;
    let known_facts = facts_of(alloc, old, &imports, classes)?;
    let known_links = type_links(alloc, wider.as_slice())?;
    let known = flow_by(alloc, known_facts.as_slice(), known_links, nodes)?;
    imports.add_module(new)?;
    let facts = facts_with(alloc, old, new, &imports, classes)?;
    let links = type_links(alloc, wider.as_slice())?;
    let flow = flow_by(alloc, facts.as_slice(), links, nodes)?;
    Ok((flow, known))
}

/// The direct edges of the modules with one more that are none of the modules alone, by slot and then by address, each
/// once.
///
/// The last of `classes` are those of the new module's types. Together the modules are as `edges` takes them. The edges
/// of the modules alone are not made: what each node reaches is looked at with the new module and without it.
pub fn fresh(
    alloc: Global,
    old: &[Placed],
    new: &Placed,
    classes: &Classes,
) -> Result<Vec<Edge>, AllocError>
    requires graph { HaveGraph (old.now ++ new.now ∷ []) }
    requires classes { AreClasses (tables_of (old.now ++ new.now ∷ [])) classes.now }
    ensures { IfOk result (λ edges. AreNewEdges old.now (old.now ++ new.now ∷ []) edges.items) }
{
    let (flow, known) = flows_of(alloc, old, new, classes)?;
    fresh_edges(alloc, &flow, &known)
}
