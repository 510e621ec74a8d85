//! The modules that a policy finds loaded.

ghost use Rattle.std.specs.Prelude.{◌≡◌, length};
ghost use Rattle.cfi_labels.specs.Labels.{ComeInOrder};
ghost use Rattle.cfi_ledger.specs.Force.{count_by_policy};
ghost use Rattle.cfi_ledger.specs.Roster.{loaded_in_roster};
ghost use Rattle.cfi_modules.specs.Series.{IsSeries};
ghost use Rattle.cfi_valid.specs.Loaded.{loaded_by, placed_modules};

use cfi_aux::Placed;
use cfi_ledger::Roster;

/// The modules that a policy finds loaded, as they are placed: under policy 0 those that were there from the start.
///
/// The roster has a line for each module.
pub fn loaded_modules(roster: &Roster, policy: u32) -> &[Placed]
    requires lined { length roster.now.lines ≡ length roster.now.placed }
    requires order { ComeInOrder (loaded_in_roster roster.now) }
    ensures is { result.now ≡ placed_modules (loaded_by policy (loaded_in_roster roster.now)) }
    ensures count { length result.now ≡ count_by_policy policy roster.now }
    ensures series { IsSeries roster.now.code_words roster.now.placed }
{
    let count = roster.count_by_policy(policy);
    &roster.modules()[..count]
}
