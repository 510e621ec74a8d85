ghost use Rattle.std.specs.Prelude.{◌+◌, ◌<◌, ◌^◌, All, IfOk};
ghost use Rattle.cfi_word.specs.declared.ids.TheConstants.{FIELD_MAX};
ghost use Rattle.cfi_class.specs.Labels.{HasEdge, IsEdgeWithin, CanBeLabelled};
ghost use Rattle.cfi_class.specs.Labels.{AreNumbers, AreOrderedBySlot, AreLabels};

use crate::numbering::{number_slots, number_words};
use crate::sweep::{forest_of, used_slots};
use cfi_values::Numbers;
use cfi_word::{Edge, FIELD_MAX, Labels, Layout};
use std::alloc::{AllocError, Global};

/// The class number of each of so many code words and branch slots, classes in the order of their least slots.
///
/// A slot and an address have one number exactly where a chain of edges joins them: the edges need no order, and one
/// may come twice. A code word that no edge reaches has 0, and a slot without an edge has `FIELD_MAX`.
///
/// Each edge's branch is below `slots`, and each target is the address of one of the code words, in bytes. `label` is
/// for the slots and code words of a table's layout. MCFI (Niu and Tan, PLDI 2014).
pub fn numbers(
    alloc: Global,
    edges: &[Edge],
    slots: u32,
    code_words: u32,
) -> Result<Labels, AllocError>
    requires few { slots < FIELD_MAX }
    requires fits { slots + code_words < 2 ^ 32 }
    requires within { All (IsEdgeWithin slots code_words) edges.now }
    ensures labels { IfOk result (λ labels.
        AreNumbers (HasEdge edges.now) slots code_words labels.tary labels.bary) }
    ensures order { IfOk result (λ labels. AreOrderedBySlot (HasEdge edges.now) labels.bary) }
{
    let mut forest = forest_of(alloc, edges, slots, code_words)?;
    let used = used_slots(alloc, edges, slots, code_words)?;
    let bary = number_slots(alloc, &mut forest, &used)?;
    let tary = number_words(alloc, &mut forest, &bary, code_words)?;
    Ok(Labels {
        tary: Numbers::from_vec(tary),
        bary: Numbers::from_vec(bary),
    })
}

/// The class number of each code word and of each branch slot of the layout.
///
/// A slot and an address have one number exactly where a chain of edges joins them: the edges need no order, and one
/// may come twice. Classes are numbered from 1, in the order of their least slots. A code word that no edge reaches
/// has 0, and a slot without an edge has `FIELD_MAX`.
///
/// Each edge's branch is below `slots`, which is at most the layout's number of slots; each target is the address of
/// one of the layout's code words, in bytes. MCFI (Niu and Tan, PLDI 2014).
pub fn label(
    alloc: Global,
    edges: &[Edge],
    slots: u32,
    layout: &Layout,
) -> Result<Labels, AllocError>
    requires { CanBeLabelled edges.now slots layout.now }
    ensures labels { IfOk result (λ labels.
        AreLabels (HasEdge edges.now) layout.now labels.tary labels.bary) }
    ensures order { IfOk result (λ labels. AreOrderedBySlot (HasEdge edges.now) labels.bary) }
{
    let Labels { tary, bary } = numbers(alloc, edges, slots, layout.code_words())?;
    let mut bary = bary.into_vec();
    bary.resize(layout.slots() as usize, FIELD_MAX)?;
    Ok(Labels {
        tary,
        bary: Numbers::from_vec(bary),
    })
}
