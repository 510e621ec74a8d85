//! The first words of functions, of which jumps of other functions may go to one.

ghost use Rattle.std.specs.Prelude.{◌≡◌, ◌++◌, IfOk, OnOk, IsTrue, ◌↔◌};
ghost use Rattle.std.specs.List.{Contains};
ghost use Rattle.std.specs.List.Sorted.{IsNonDecreasing};
ghost use Rattle.cfi_verify.specs.Target.{entries_in};
ghost use Rattle.cfi_verify.specs.inner.Places.{AreEntriesOf};

use cfi_aux::Placed;
use std::alloc::{AllocError, Global};

// Appends the first words of the module's functions.
fn push_entries(entries: &mut Vec<u64>, placed: &Placed) -> Result<(), AllocError>
    ensures { OnOk result (entries.new.items ≡ entries.old.items ++ entries_in placed.now) }
{
    let functions = placed.functions.as_slice();
    for function in functions {
        entries.push(u64::from(placed.base) + u64::from(function.first))?;
    }
    Ok(())
}

/// The first words of the functions of a module and of those loaded, sorted.
pub fn entries_of(alloc: Global, placed: &Placed, loaded: &[Placed]) -> Result<Vec<u64>, AllocError>
    ensures all { IfOk result (λ entries. AreEntriesOf placed.now loaded.now entries.items) }
    ensures sorted { IfOk result (λ entries. IsNonDecreasing entries.items) }
{
    let mut entries = Vec::new(alloc);
    push_entries(&mut entries, placed)?;
    for other in loaded {
        push_entries(&mut entries, other)?;
    }
    entries.sort_unstable();
    Ok(entries)
}

/// Whether the word is among these.
pub fn is_entry(entries: &[u64], to: u64) -> bool
    requires { IsNonDecreasing entries.now }
    ensures { IsTrue result ↔ Contains entries.now to }
{
    entries.binary_search(&to).is_ok()
}
