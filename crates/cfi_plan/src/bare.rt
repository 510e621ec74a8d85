//! The plan that a bare file stands for.

ghost use Rattle.std.specs.Prelude.{◌≡◌, IfOk};
ghost use Rattle.cfi_plan.specs.Bare.{bare_plan};

use crate::plan::{Plan, PlanModule};
use cfi_values::{Items, Text};
use cfi_word::limits::{FUEL, MAX_CODE_WORDS, MAX_VERSIONS};
use std::alloc::{AllocError, Global};

// The name of a bare file's module, and of its function.
const BARE: &str = "bare";

/// The plan that a bare file stands for: one start module and one guest, both named `bare`, under the settings that a
/// plan has where it names none.
///
/// The module's file has no name, so no text is read as this plan.
pub fn bare_plan(alloc: Global) -> Result<Plan, AllocError>
    ensures { IfOk result (λ plan. plan ≡ bare_plan) }
{
    let mut modules = Vec::new(alloc);
    modules.push(PlanModule {
        name: Text::from_string(BARE.to_string(alloc)?),
        file: Text::from_string(String::new(alloc)),
        start: true,
    })?;
    let mut guests = Vec::new(alloc);
    guests.push(Text::from_string(BARE.to_string(alloc)?))?;
    Ok(Plan {
        code_words: MAX_CODE_WORDS,
        versions: MAX_VERSIONS,
        first: 0,
        fuel: FUEL,
        modules: Items::from_vec(modules),
        guests: Items::from_vec(guests),
        script: Items::from_vec(Vec::new(alloc)),
    })
}
