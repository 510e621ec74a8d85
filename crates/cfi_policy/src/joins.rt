//! Whether the policy of modules lets a branch go to an address.

ghost use Rattle.std.specs.Prelude.{◌↔◌, IfOk, IsTrue};
ghost use Rattle.cfi_graph.specs.Direct.{Allowed};
ghost use Rattle.cfi_graph.specs.Reading.{HaveGraph};

use cfi_aux::Placed;
use cfi_class::are_joined;
use cfi_graph::spanning;
use cfi_word::limits::MAX_CODE_WORDS;
use cfi_word::sizes::SLOTS;
use std::alloc::{AllocError, Global};

/// Whether the policy of the modules lets the branch of a slot go to an address, in bytes: a chain of direct edges
/// leads from the one to the other.
///
/// The modules are shaped and lie apart, in the order of their places; `branch` and `target` may be any numbers.
/// MCFI (Niu and Tan, PLDI 2014).
pub fn allowed(
    alloc: Global,
    modules: &[Placed],
    branch: u32,
    target: u32,
) -> Result<bool, AllocError>
    requires { HaveGraph modules.now }
    ensures { IfOk result (λ is. IsTrue is ↔ Allowed modules.now branch target) }
{
    let edges = spanning(alloc, modules)?;
    are_joined(
        alloc,
        edges.as_slice(),
        SLOTS,
        MAX_CODE_WORDS + 1,
        branch,
        target,
    )
}
