ghost use Rattle.std.specs.Prelude.{◌≡◌, ℕ, List, Some, if◌then◌else◌, OnOk, OnErr};
ghost use Rattle.std.specs.BTreeMap.{get_by_text};
ghost use Rattle.std.specs.Str.{bytes_eq};

use cfi_values::Text;
use std::alloc::{AllocError, Global};
use std::collections::BTreeMap;

/// The number under the name.
pub fn number_of(names: &BTreeMap<String, u32>, name: &Text) -> Option<u32>
    ensures { result ≡ get_by_text names.now name.now }
{
    names.get(name.as_str()).copied()
}

/// Puts the number under the name.
pub fn give_number(
    alloc: Global,
    names: &mut BTreeMap<String, u32>,
    name: &Text,
    number: u32,
) -> Result<(), AllocError>
    ensures ok { OnOk result ((other : List ℕ) → get_by_text names.new other
        ≡ (if bytes_eq name.now other then Some number else get_by_text names.old other)) }
    ensures err { OnErr result ((other : List ℕ) →
        get_by_text names.new other ≡ get_by_text names.old other) }
{
    let key = String::from_str(alloc, name.as_str())?;
    names.insert(key, number)?;
    Ok(())
}
