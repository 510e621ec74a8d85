//! The units of code and where they stand.

ghost use Rattle.std.specs.Prelude.{◌≡◌, ◌≤◌, List, length, IfOk};
ghost use Rattle.cfi_unit.specs.declared.unit.Unit.{Unit as CodeUnit};
ghost use Rattle.cfi_unit.specs.Code.{UnitCode};
ghost use Rattle.cfi_unit.specs.Spots.{AreUnits, spots_of};
ghost use Rattle.cfi_word.specs.declared.limits.TheConstants.{MAX_CODE_WORDS};

use cfi_unit::{ReadFault, Spot, read_units};
use std::alloc::{AllocError, Global};

/// The units of which the words are the code, each with the word at which it stands.
pub fn spots(alloc: Global, words: &[u32]) -> Result<Vec<Spot>, AllocError>
    requires units { AreUnits words.now }
    requires fits { length words.now ≤ MAX_CODE_WORDS }
    ensures { (code : List CodeUnit) → UnitCode words.now code →
        IfOk result (λ spots. spots.items ≡ spots_of 0 code) }
{
    match read_units(alloc, words) {
        Ok(spots) => Ok(spots),
        Err(ReadFault::Memory) => Err(AllocError),
        Err(ReadFault::Stops(_)) => unreachable!(),
    }
}
