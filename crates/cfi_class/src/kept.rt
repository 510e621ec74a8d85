//! Labels that are kept while edges are added.

ghost use Rattle.std.specs.Prelude.{◌≡◌, length, IfOk};
ghost use Rattle.cfi_word.specs.Table.{IsSize};
ghost use Rattle.cfi_class.specs.Kept.{AreLabelsOf, AreExtended, IsKept};
ghost use Rattle.cfi_class.specs.Labels.{HasEdge, CanBeLabelled, AreLabels, AreOrderedBySlot};

use crate::labels::label;
use crate::nodes::kept_forest;
use crate::renumbering::{number_kept_slots, number_kept_words};
use crate::sweep::used_slots;
use crate::taken::taken_numbers;
use cfi_values::Numbers;
use cfi_word::{Edge, Labels, Layout};
use std::alloc::{AllocError, Global};
use std::marker::Model;

/// The labels of some edges, which stand while edges are added.
#[derive(Debug, Drop)]
pub struct Kept {
    layout: Layout,
    labels: Labels,
}

// Clauses see the labels.
impl Model for Kept {
    ghost use Rattle.cfi_word.specs.declared.lists.Labels.{Labels as TheLabels};
    ghost use Rattle.cfi_class.specs.Kept.{IsKept};

    ghost Value = { TheLabels };

    ghost view = { λ kept. kept.labels };

    ghost invariant = { λ kept. IsKept kept.layout kept.labels };
}

// The labels of the edges before and of further ones.
fn extended(
    alloc: Global,
    labels: &Labels,
    fresh: &[Edge],
    slots: u32,
    code_words: u32,
) -> Result<Labels, AllocError>
    requires size { IsSize code_words }
    requires kept { IsKept code_words labels.now }
    requires can { CanBeLabelled fresh.now slots code_words }
    ensures { IfOk result (AreExtended labels.now fresh.now) }
{
    let tary = labels.tary.as_slice();
    let bary = labels.bary.as_slice();
    let mut forest = kept_forest(alloc, tary, bary, fresh)?;
    let used = used_slots(alloc, fresh, slots, code_words)?;
    let taken = taken_numbers(alloc, bary)?;
    let branches = number_kept_slots(alloc, &mut forest, bary, &used, &taken)?;
    let words = number_kept_words(alloc, &mut forest, tary, &branches)?;
    Ok(Labels {
        tary: Numbers::from_vec(words),
        bary: Numbers::from_vec(branches),
    })
}

impl Kept {
    /// The labels of edges, as `label` gives them: classes are numbered from 1, in the order of their least slots.
    pub fn of(
        alloc: Global,
        edges: &[Edge],
        slots: u32,
        layout: &Layout,
    ) -> Result<Kept, AllocError>
        requires { CanBeLabelled edges.now slots layout.now }
        ensures labels { IfOk result (λ labels.
            AreLabels (HasEdge edges.now) layout.now labels.tary labels.bary) }
        ensures order { IfOk result (λ labels.
            AreOrderedBySlot (HasEdge edges.now) labels.bary) }
        ensures all { IfOk result (AreLabelsOf edges.now) }
    {
        Ok(Kept {
            layout: *layout,
            labels: label(alloc, edges, slots, layout)?,
        })
    }

    /// The labels of all edges so far and of further ones.
    ///
    /// A class of which something had a number has the least of these. The new classes, in the order of their least
    /// slots, take the least number each that nothing had and none of them has taken.
    ///
    /// Each further edge's branch is below `slots`, which is at most the number of slots of the layout; each target is
    /// the address of one of its code words, in bytes. It makes one pass over the labels and one over the edges.
    pub fn joined(&self, alloc: Global, fresh: &[Edge], slots: u32) -> Result<Kept, AllocError>
        requires { CanBeLabelled fresh.now slots (length self.now.tary) }
        ensures labels { IfOk result (AreExtended self.now fresh.now) }
        ensures size { IfOk result (λ labels. length labels.tary ≡ length self.now.tary) }
    {
        let code_words = self.layout.code_words();
        let labels = extended(alloc, &self.labels, fresh, slots, code_words)?;
        Ok(Kept {
            layout: self.layout,
            labels,
        })
    }

    /// The class number of each code word and of each branch slot. It takes no memory.
    pub fn labels(&self) -> &Labels
        ensures { result.now ≡ self.now }
    {
        &self.labels
    }
}
