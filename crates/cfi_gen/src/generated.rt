//! What is generated of a seed.

ghost use Rattle.std.specs.Prelude.{◌≡◌, ◌≤◌, length, All, IfOk, IfErr, Ok, string_bytes};
ghost use Rattle.cfi_commands.specs.Modules.{IsShortFile};
ghost use Rattle.cfi_gen.specs.Plan.{plan_text};
ghost use Rattle.cfi_gen.specs.declared.shape.TheConstants.{MAX_COUNT, MIN_COUNT};
ghost use Rattle.cfi_gen.specs.Generated.{AreGenerated, IsGenerateFault};
ghost use Rattle.cfi_gen.specs.PlanRead.{drawn_plan};
ghost use Rattle.cfi_plan.specs.Plan.{IsPlan};
ghost use Rattle.cfi_plan.specs.Reading.{plan_in};

use crate::draws::draw_modules;
use crate::files::files_of;
use crate::plan::plan_of;
use crate::plan_read::plans_are_read;
use cfi_commands::CommandFault;
use cfi_plan::{Plan, PlanFault, read_plan};
use cfi_values::{Bytes, Items};
use std::alloc::{AllocError, Global};

/// The plan of drawn modules, and their files.
#[derive(Drop)]
pub struct Generated {
    /// The plan, which names the files.
    pub plan: Plan,
    /// The files of its modules, in order.
    pub files: Items<Bytes>,
}

// The plan of so many modules, as its text is read.
fn plan_read(alloc: Global, count: u32) -> Result<Plan, AllocError>
    requires some { MIN_COUNT ≤ count }
    requires few { count ≤ MAX_COUNT }
    ensures is { IfOk result (λ plan. plan ≡ drawn_plan count) }
    ensures sound { IfOk result IsPlan }
{
    plans_are_read();
    let text = plan_of(alloc, count)?;
    match read_plan(alloc, text.as_bytes()) {
        Ok(plan) => Ok(plan),
        Err(PlanFault::Memory) => Err(AllocError),
        Err(_) => unreachable!(),
    }
}

/// The plan and the files of the modules that are drawn of a seed, of so many: each module's source is assembled, and
/// the object that is read of its file is instrumented.
///
/// The fault is that of the first source that is refused, by its number from 0.
pub fn generate(alloc: Global, seed: u64, count: u32) -> Result<Generated, CommandFault>
    requires some { MIN_COUNT ≤ count }
    requires few { count ≤ MAX_COUNT }
    ensures plan { IfOk result (λ made. plan_in (plan_text count) ≡ Ok made.plan) }
    ensures sound { IfOk result (λ made. IsPlan made.plan) }
    ensures count { IfOk result (λ made. length made.files ≡ length made.plan.modules) }
    ensures files { IfOk result (λ made. AreGenerated seed count made.files) }
    ensures short { IfOk result (λ made. All IsShortFile made.files) }
    ensures fault { IfErr result (IsGenerateFault seed count) }
{
    plans_are_read();
    let plan = plan_read(alloc, count)?;
    let drawn = draw_modules(alloc, seed, count)?;
    let files = files_of(alloc, count, drawn.as_slice())?;
    Ok(Generated { plan, files })
}
