//! The lines of a report's modules and of its journal, in memory of their own.

ghost use Rattle.std.specs.Prelude.{◌≡◌, [], ◌∷◌, ◌++◌, IfOk, OnOk};
ghost use Rattle.std.specs.List.{AllByRecursion};
ghost use Rattle.cfi_guest_run.specs.inner.Lines.{HasEntryFields, HasModuleFields};

use cfi_plan::{Entry, ModuleLine};
use cfi_values::Text;
use std::alloc::{AllocError, Global};

// Adds a line, whose numbers have 32 bits each.
#[tactic(auto, using(crate::proofs::LineLemmas::entries_push))]
fn add_entry(journal: &mut Vec<Entry>, entry: Entry) -> Result<(), AllocError>
    requires fields { AllByRecursion HasEntryFields journal.old.items }
    ensures same { OnOk result (journal.new.items ≡ journal.old.items ++ entry ∷ []) }
    ensures fields { OnOk result (AllByRecursion HasEntryFields journal.new.items) }
{
    journal.push(entry)?;
    Ok(())
}

/// The journal, line by line.
pub(crate) fn journal_of(alloc: Global, journal: &[Entry]) -> Result<Vec<Entry>, AllocError>
    ensures same { IfOk result (λ copy. copy.items ≡ journal.now) }
    ensures fields { IfOk result (λ copy. AllByRecursion HasEntryFields copy.items) }
{
    let mut copy = Vec::with_capacity(alloc, journal.len())?;
    for entry in journal {
        add_entry(&mut copy, *entry)?;
    }
    Ok(copy)
}

// What is said of a loaded module.
fn module_of(alloc: Global, line: &ModuleLine) -> Result<ModuleLine, AllocError>
    ensures same { IfOk result (λ copy. copy ≡ line.now) }
    ensures fields { IfOk result HasModuleFields }
{
    let name = Text::from_string(String::from_str(alloc, line.name.as_str())?);
    let (number, base, slot) = (line.number, line.base, line.slot);
    let (data_base, policy) = (line.data_base, line.policy);
    Ok(ModuleLine {
        number,
        name,
        base,
        slot,
        data_base,
        policy,
    })
}

/// What is said of the loaded modules, line by line.
#[tactic(auto, using(crate::proofs::LineLemmas::modules_push))]
pub(crate) fn modules_of(alloc: Global, lines: &[ModuleLine]) -> Result<Vec<ModuleLine>, AllocError>
    ensures same { IfOk result (λ copy. copy.items ≡ lines.now) }
    ensures fields { IfOk result (λ copy. AllByRecursion HasModuleFields copy.items) }
{
    let mut copy = Vec::with_capacity(alloc, lines.len())?;
    for line in lines {
        copy.push(module_of(alloc, line)?)?;
    }
    Ok(copy)
}
