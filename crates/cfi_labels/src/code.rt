//! The code of a run.

ghost use Rattle.std.specs.Prelude.{◌≡◌, IfOk, length};
ghost use Rattle.cfi_ledger.specs.Roster.{loaded_in_roster};
ghost use Rattle.cfi_policy.specs.Code.{IsCodeOf};
ghost use Rattle.cfi_valid.specs.Loaded.{placed_modules};

use cfi_ledger::Roster;
use cfi_modules::{loaded_have_image, series_have_graph};
use cfi_policy::code_of;
use cfi_values::Numbers;
use cfi_word::Layout;
use std::alloc::{AllocError, Global};

/// The code of all loaded modules: their words at their places, and 0 elsewhere.
///
/// The layout is that of the roster, which has a line for each module.
pub fn run_code(alloc: Global, roster: &Roster, layout: &Layout) -> Result<Numbers, AllocError>
    requires layout { layout.now ≡ roster.now.code_words }
    requires lined { length roster.now.lines ≡ length roster.now.placed }
    ensures { IfOk result
        (IsCodeOf (placed_modules (loaded_in_roster roster.now)) layout.now) }
{
    series_have_graph();
    loaded_have_image();
    code_of(alloc, roster.modules(), layout)
}
