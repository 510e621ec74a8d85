//! The modules that are live under a policy.

ghost use Rattle.std.specs.Prelude.{◌≡◌, IfOk, length};
ghost use Rattle.cfi_labels.specs.Live.{is_live_line};
ghost use Rattle.cfi_ledger.specs.Roster.{members_in_roster};
ghost use Rattle.cfi_policy.specs.Image.{HaveImage};
ghost use Rattle.cfi_valid.specs.Loaded.{is_retired_by, live_at, live_flags, placed_modules};

use cfi_aux::Placed;
use cfi_ledger::Roster;
use cfi_modules::{live_have_images, series_have_graph};
use cfi_plan::ModuleLine;
use cfi_retire::live_list;
use cfi_valid::Retirement;
use std::alloc::{AllocError, Global};

// The module of the number was retired with a policy or before it.
fn is_retired_by(retired: &[Retirement], number: u32, policy: u32) -> bool
    ensures { result ≡ is_retired_by policy number retired.now }
{
    retired
        .iter()
        .any(|one| one.number == number && one.policy <= policy)
}

/// Whether the module of a line is live under a policy: it came with it or before it, and is none of those that were
/// retired by then.
pub fn is_live(line: &ModuleLine, retired: &[Retirement], policy: u32) -> bool
    ensures { result ≡ is_live_line policy retired.now line.now }
{
    line.policy <= policy && !is_retired_by(retired, line.number, policy)
}

// For each of the modules whether it is.
fn live_flags(alloc: Global, roster: &Roster, policy: u32) -> Result<Vec<bool>, AllocError>
    ensures flags { IfOk result (λ flags.
        flags.items ≡ live_flags policy (members_in_roster roster.now)) }
    ensures many { IfOk result (λ flags. length flags.items ≡ length roster.now.placed) }
    ensures lined { length roster.now.lines ≡ length roster.now.placed }
{
    let mut flags = Vec::new(alloc);
    let lines = roster.lines();
    for line in lines {
        flags.push(is_live(line, roster.retired(), policy))?;
    }
    Ok(flags)
}

/// The modules that are live under a policy, in load order, in memory of their own. They have an image.
pub(crate) fn live_modules(
    alloc: Global,
    roster: &Roster,
    policy: u32,
) -> Result<Vec<Placed>, AllocError>
    ensures is { IfOk result (λ live.
        live.items ≡ placed_modules (live_at policy (members_in_roster roster.now))) }
    ensures image { IfOk result (λ live. HaveImage live.items roster.now.code_words) }
{
    series_have_graph();
    live_have_images();
    let flags = live_flags(alloc, roster, policy)?;
    live_list(alloc, roster.modules(), &flags)
}
