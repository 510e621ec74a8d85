//! Plans and modules of the program's files.

ghost use Rattle.std.specs.Prelude.{◌≡◌, true, All, IfSome};
ghost use Rattle.cfi_aux.specs.Sound.{IsSoundModule};
ghost use Rattle.cfi_engine.specs.Guests.{HasCode};
ghost use Rattle.cfi_ledger.specs.Plans.{CanStart};
ghost use Rattle.cfi_plan.specs.Plan.{IsPlan};
ghost use Rattle.cfi_modules.specs.Series.{CanBeTaken};

use cfi_aux::Module;
use cfi_commands::{assembled, instrumented, read_module};
use cfi_loader::laws::plans_can_start;
use cfi_plan::{Plan, read_plan};
use cfi_values::Items;
use cfi_word::limits::MAX_FILE_BYTES;
use std::alloc::Global;

// Whether the module's parts are within what a file of so many bytes can have.
fn is_small(one: &Module) -> bool
    requires { IsSoundModule one.now }
    ensures { result ≡ true → CanBeTaken one.now }
{
    let most = MAX_FILE_BYTES as usize;
    one.object.text.len() <= most
        && one.object.static_data.len() <= most
        && one.object.relocs.len() <= most
        && one.records.functions.len() <= most
}

// The instrumented module of a source.
fn module_of(alloc: Global, source: &[u8]) -> Option<Module>
    ensures { IfSome result CanBeTaken }
{
    let most = MAX_FILE_BYTES as usize;
    if source.len() > most {
        return None;
    }
    let object = assembled(alloc, source).ok()?;
    if object.len() > most {
        return None;
    }
    let file = instrumented(alloc, &object).ok()?;
    if file.len() > most {
        return None;
    }
    let found = read_module(alloc, 0, &file).ok()?;
    if is_small(&found) { Some(found) } else { None }
}

// The plan that a text says.
fn plan_of(alloc: Global, text: &[u8]) -> Option<Plan>
    ensures { IfSome result IsPlan }
{
    if text.len() > MAX_FILE_BYTES as usize {
        return None;
    }
    match read_plan(alloc, text) {
        Ok(plan) => Some(plan),
        Err(_) => None,
    }
}

// The instrumented modules of sources, in order.
fn modules_of(alloc: Global, sources: &[Vec<u8>]) -> Option<Items<Module>>
    ensures { IfSome result (All CanBeTaken) }
{
    let mut modules = Vec::new(alloc);
    for source in sources {
        let one = module_of(alloc, source.as_slice())?;
        modules.push(one).ok()?;
    }
    Some(Items::from_vec(modules))
}

/// The plan that a text says, with the modules of these sources; None where they are not so many.
pub fn planned(alloc: Global, text: &[u8], sources: &[Vec<u8>]) -> Option<(Plan, Items<Module>)>
    ensures can { IfSome result (λ found. CanStart found.0 found.1) }
    ensures code { IfSome result (λ found. HasCode found.0 found.1) }
{
    let plan = plan_of(alloc, text)?;
    let modules = modules_of(alloc, sources)?;
    if plan.modules.len() != modules.len() {
        return None;
    }
    plans_can_start();
    Some((plan, modules))
}
