//! The links of placed modules, kept while modules are added.

ghost use Rattle.std.specs.Prelude.{◌≡◌, ◌≤◌, ℕ, ◌<◌, ◌^◌, ◌++◌, ◌∷◌, [], List, length, IfOk};
ghost use Rattle.cfi_aux.specs.declared.placed.Placed.{Placed as PlacedModule};
ghost use Rattle.cfi_flow.specs.Flow.{IsSound};
ghost use Rattle.cfi_flow.specs.Fresh.{AreOthers};
ghost use Rattle.cfi_types.specs.Classes.{AreClasses};
ghost use Rattle.cfi_graph.specs.KeptGraph.{IsGraphOf, IsLonger, SpanEdges};
ghost use Rattle.cfi_graph.specs.Reading.{tables_of, HaveGraph};
ghost use Rattle.cfi_graph.specs.inner.Addition.{IsAddition, HasAddition};
ghost use Rattle.cfi_graph.specs.inner.KeptGraph.{AreMoreWider};

use crate::addition::Addition;
use crate::direct::{book_of, type_links};
use crate::fact::flow_by;
use crate::more::more_facts;
use crate::new_edges::{book_with, node_count_with};
use cfi_aux::Placed;
use cfi_fits::widenings;
use cfi_flow::{KeptFlow, Link, other_links};
use cfi_types::{Classes, TypeBook};
use cfi_word::Edge;
use std::alloc::{AllocError, Global};
use std::marker::Model;

/// The links of placed modules, to which modules are added, and few of their direct edges.
#[derive(Drop)]
pub struct KeptGraph {
    classes: Classes,
    // Links between classes, each to a wider one.
    wider: Vec<Link>,
    flow: KeptFlow,
}

// Clauses see classes and links.
impl Model for KeptGraph {
    ghost use Rattle.cfi_graph.specs.KeptGraph.{Graph};

    ghost Value = { Graph };

    ghost view = { λ g. record { classes = g.classes; wider = g.wider.items; flow = g.flow } };
}

// Links to wider classes that are none of the known ones.
fn more_wider(
    alloc: Global,
    old: &[Placed],
    new: &Placed,
    classes: &Classes,
    known: &[Link],
) -> Result<Vec<Link>, AllocError>
    requires graph { HaveGraph (old.now ++ new.now ∷ []) }
    requires classes { AreClasses (tables_of (old.now ++ new.now ∷ [])) classes.now }
    ensures { IfOk result (λ links.
        AreMoreWider (tables_of (old.now ++ new.now ∷ [])) classes.now known.now links.items) }
{
    let book = book_with(alloc, old, new)?;
    let all = widenings(alloc, &book, classes)?;
    other_links(alloc, all.as_slice(), known)
}

impl KeptGraph {
    /// No modules.
    pub fn new(alloc: Global) -> Result<KeptGraph, AllocError>
        ensures is { IfOk result (IsGraphOf []) }
        ensures edges { IfOk result (λ graph. graph.flow.edges ≡ []) }
    {
        let book = TypeBook::new(alloc);
        Ok(KeptGraph {
            classes: book.classes()?,
            wider: Vec::new(alloc),
            flow: KeptFlow::new(alloc),
        })
    }

    /// The links of the modules, which are as `edges` takes them.
    pub fn of(alloc: Global, modules: &[Placed]) -> Result<KeptGraph, AllocError>
        requires { HaveGraph modules.now }
        ensures { IfOk result (IsGraphOf modules.now) }
    {
        let mut graph = KeptGraph::new(alloc)?;
        for (number, placed) in modules.iter().enumerate() {
            graph = graph.grown(alloc, &modules[..number], placed)?;
        }
        Ok(graph)
    }

    // A copy.
    fn copied(&self, alloc: Global) -> Result<KeptGraph, AllocError>
        ensures { IfOk result (λ graph. graph ≡ self.now) }
    {
        Ok(KeptGraph {
            classes: self.classes.copied(alloc)?,
            wider: Vec::from_slice(alloc, &self.wider)?,
            flow: self.flow.copied(alloc)?,
        })
    }

    // What one more module adds.
    fn addition(&self, alloc: Global, old: &[Placed], new: &Placed) -> Result<Addition, AllocError>
        requires graph { HaveGraph (old.now ++ new.now ∷ []) }
        requires is { IsGraphOf old.now self.now }
        ensures { IfOk result (IsAddition old.now new.now self.now) }
    {
        let book = book_of(alloc, old)?;
        let classes = book.classes_with(&new.types, &self.classes)?;
        let wider = more_wider(alloc, old, new, &classes, &self.wider)?;
        let facts = more_facts(alloc, old, new, &classes)?;
        let links = type_links(alloc, wider.as_slice())?;
        let nodes = node_count_with(old, new);
        let flow = flow_by(alloc, facts.as_slice(), links, nodes)?;
        Ok(Addition {
            classes,
            wider,
            flow,
        })
    }

    // With what a module adds.
    fn with(self, alloc: Global, more: Addition) -> Result<KeptGraph, AllocError>
        requires sound { IsSound more.flow }
        requires nodes { self.flow.nodes ≤ more.flow.nodes }
        ensures { IfOk result (HasAddition self more) }
    {
        let KeptGraph {
            mut wider,
            flow,
            ..
        } = self;
        wider.extend_from_slice(&more.wider)?;
        let flow = flow.grown(alloc, &more.flow)?;
        Ok(KeptGraph {
            classes: more.classes,
            wider,
            flow,
        })
    }

    /// The links of the modules and of one more, where these are those of the modules alone. They stay as they are.
    ///
    /// Together the modules are as `edges` takes them. The work is that of `grown`, and a copy.
    pub fn extended(
        &self,
        alloc: Global,
        old: &[Placed],
        new: &Placed,
    ) -> Result<KeptGraph, AllocError>
        requires graph { HaveGraph (old.now ++ new.now ∷ []) }
        requires is { IsGraphOf old.now self.now }
        ensures is { IfOk result (IsGraphOf (old.now ++ new.now ∷ [])) }
        ensures edges { IfOk result (λ graph. IsLonger self.now.flow.edges graph.flow.edges) }
    {
        self.copied(alloc)?.grown(alloc, old, new)
    }

    /// The links of the modules and of one more, where these are those of the modules alone.
    ///
    /// Together the modules are as `edges` takes them. Of the old ones numbers of types and kinds of types and branches
    /// are looked at, and types where they are new with a module. Names of functions are looked at only where the new
    /// module imports some, or has some that old ones import, and code only where it imports a name that only the new
    /// module's functions have.
    pub fn grown(self, alloc: Global, old: &[Placed], new: &Placed) -> Result<KeptGraph, AllocError>
        requires graph { HaveGraph (old.now ++ new.now ∷ []) }
        requires is { IsGraphOf old.now self }
        ensures is { IfOk result (IsGraphOf (old.now ++ new.now ∷ [])) }
        ensures edges { IfOk result (λ graph. IsLonger self.flow.edges graph.flow.edges) }
    {
        let more = self.addition(alloc, old, new)?;
        self.with(alloc, more)
    }

    /// Some of the direct edges of the modules: a chain of them joins what any direct edge joins.
    ///
    /// Those of the modules before stand first.
    pub fn edges(&self) -> &[Edge]
        ensures value { result.now ≡ self.now.flow.edges }
        ensures spans { (ms : List PlacedModule) → HaveGraph ms → IsGraphOf ms self.now →
            SpanEdges ms result.now }
    {
        self.flow.edges()
    }
}
