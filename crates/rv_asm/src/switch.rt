//! The places of a switch.

ghost use Rattle.std.specs.Prelude.{◌≡◌, IfOk};
ghost use Rattle.std.specs.List.{list_all};
ghost use Rattle.rv_asm.specs.Made.{value_in, values_in};
ghost use Rattle.rv_asm.specs.Fault.{in_text};

use elf_read::Name;
use rv_names::Names;
use std::alloc::{AllocError, Global};

/// Where the text has these names, in bytes from its start; 0 for one that it lacks.
pub fn values_of(alloc: Global, names: &Names, switch: &[Name]) -> Result<Vec<u32>, AllocError>
    ensures { IfOk result (λ values. values.items ≡ values_in names.now switch.now) }
{
    let mut values = Vec::with_capacity(alloc, switch.len())?;
    for name in switch {
        values.push(value_in(names, name))?;
    }
    Ok(values)
}

fn value_in(names: &Names, name: &Name) -> u32
    ensures { result ≡ value_in names.now name.now }
{
    names.text_value(name.as_str()).unwrap_or(0)
}

/// Whether the text has all of these names.
pub fn are_in_text(names: &Names, switch: &[Name]) -> bool
    ensures { result ≡ list_all (in_text names.now) switch.now }
{
    switch
        .iter()
        .all(|name| names.text_value(name.as_str()).is_some())
}
