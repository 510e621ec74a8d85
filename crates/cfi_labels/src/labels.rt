//! The labels of each policy.

ghost use Rattle.std.specs.Prelude.{◌≡◌, IfOk};
ghost use Rattle.cfi_labels.specs.Labels.{AreLabelsAt, AreLabelsOf};
ghost use Rattle.cfi_ledger.specs.Roster.{members_in_roster};

use crate::live::live_modules;
use cfi_ledger::Roster;
use cfi_policy::image_of;
use cfi_word::{Image, Labels, Layout};
use std::alloc::{AllocError, Global};

// The labels of a policy: those of the image of the modules that are live under it.
fn labels_at(
    alloc: Global,
    roster: &Roster,
    layout: &Layout,
    policy: u32,
) -> Result<Labels, AllocError>
    requires { layout.now ≡ roster.now.code_words }
    ensures { IfOk result (AreLabelsAt (members_in_roster roster.now) policy) }
{
    let live = live_modules(alloc, roster, policy)?;
    let Image {
        tary,
        bary,
        code: _,
    } = image_of(alloc, &live, layout)?;
    Ok(Labels { tary, bary })
}

/// The labels of each policy up to the last, in order: by the number of a policy, from 0.
///
/// The layout is that of the roster. Each policy's image is made anew, of the modules that are live under it, and no
/// more than one stands at once. A set takes at most 281 kilobytes.
pub fn policy_labels(
    alloc: Global,
    roster: &Roster,
    layout: &Layout,
    last: u32,
) -> Result<Vec<Labels>, AllocError>
    requires { layout.now ≡ roster.now.code_words }
    ensures { IfOk result (λ sets.
        AreLabelsOf (members_in_roster roster.now) last sets.items) }
{
    let mut sets = Vec::new(alloc);
    for policy in 0..last as usize + 1 {
        sets.push(labels_at(alloc, roster, layout, policy as u32)?)?;
    }
    Ok(sets)
}
