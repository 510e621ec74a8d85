//! The groups of branches that the policy of modules lets go to the same addresses.

ghost use Rattle.std.specs.Prelude.{IfOk};
ghost use Rattle.cfi_graph.specs.Reading.{HaveGraph};
ghost use Rattle.cfi_policy.specs.Group.{AreGroups};

use crate::by_class::class_groups;
use crate::idle::idle_branches;
use cfi_aux::Placed;
use cfi_class::numbers;
use cfi_graph::spanning;
use cfi_values::Items;
use cfi_word::limits::MAX_CODE_WORDS;
use cfi_word::sizes::SLOTS;
use std::alloc::{AllocError, Global};

/// Branches that may go to the same addresses, and these addresses.
#[derive(Debug, PartialEq, Eq, Drop)]
pub struct Group {
    /// The slots of the branches, in order: at least one.
    pub branches: Items<u32>,
    /// The addresses in bytes, in order: none where the branches may go nowhere.
    pub targets: Items<u32>,
}

/// The groups of the modules: branches are in one group exactly where the policy lets them go to the same addresses.
///
/// Each branch of the modules is in one group. The groups are in the order of their least branches, but the one whose
/// branches may go nowhere, if there is one, is last. The modules are as `allowed` takes them; the work is proportional
/// to what `spanning` of `cfi_graph` makes of them, and not to the pairs. MCFI (Niu and Tan, PLDI 2014).
pub fn groups(alloc: Global, modules: &[Placed]) -> Result<Items<Group>, AllocError>
    requires { HaveGraph modules.now }
    ensures { IfOk result (AreGroups modules.now) }
{
    let edges = spanning(alloc, modules)?;
    let labels = numbers(alloc, edges.as_slice(), SLOTS, MAX_CODE_WORDS + 1)?;
    let mut groups = class_groups(alloc, &labels)?;
    let idle = idle_branches(alloc, modules, labels.bary.as_slice())?;
    if !idle.is_empty() {
        groups.push(Group {
            branches: Items::from_vec(idle),
            targets: Items::from_vec(Vec::new(alloc)),
        })?;
    }
    Ok(Items::from_vec(groups))
}
