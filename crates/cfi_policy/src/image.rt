ghost use Rattle.std.specs.Prelude.{IfOk};
ghost use Rattle.cfi_class.specs.Labels.{HasEdge, CanBeLabelled, AreOrderedBySlot};
ghost use Rattle.cfi_policy.specs.Code.{LieApart};
ghost use Rattle.cfi_policy.specs.Image.{IsImage, HaveImage};
ghost use Rattle.cfi_graph.specs.Direct.{DirectEdge};

use crate::code::code_of;
use cfi_aux::Placed;
use cfi_class::label;
use cfi_graph::spanning;
use cfi_word::{Edge, Image, Labels, Layout};
use std::alloc::{AllocError, Global};

/// The image of the modules where these edges lead from their branches: its classes, numbered from 1 in the order of
/// their least slots, and its code.
///
/// The modules lie apart, in the order of their places, and end within the layout. Edges and `slots` are as `label` of
/// `cfi_class` takes them.
pub fn image_from(
    alloc: Global,
    edges: &[Edge],
    slots: u32,
    modules: &[Placed],
    layout: &Layout,
) -> Result<Image, AllocError>
    requires edges { CanBeLabelled edges.now slots layout.now }
    requires modules { LieApart modules.now layout.now }
    ensures image { IfOk result (IsImage (HasEdge edges.now) modules.now layout.now) }
    ensures order { IfOk result (λ image. AreOrderedBySlot (HasEdge edges.now) image.bary) }
{
    let Labels { tary, bary } = label(alloc, edges, slots, layout)?;
    let code = code_of(alloc, modules, layout)?;
    Ok(Image { tary, bary, code })
}

/// The image of the modules: a slot and a code word have one class exactly where a chain of direct edges joins them.
/// Classes are numbered from 1 in the order of their least slots.
///
/// The modules are shaped and lie apart, in the order of their places. They and their slots end within the layout, and
/// so do the addresses that their branches may go to. The edges are not listed pair by pair.
pub fn image_of(alloc: Global, modules: &[Placed], layout: &Layout) -> Result<Image, AllocError>
    requires { HaveImage modules.now layout.now }
    ensures image { IfOk result (IsImage (DirectEdge modules.now) modules.now layout.now) }
    ensures order { IfOk result (λ image.
        AreOrderedBySlot (DirectEdge modules.now) image.bary) }
{
    let edges = spanning(alloc, modules)?;
    image_from(alloc, edges.as_slice(), layout.slots(), modules, layout)
}
