//! Reading the units of words, each once.

ghost use Rattle.std.specs.Prelude.{◌≡◌, ◌<◌, ◌^◌, length, IfOk, IfErr};
ghost use Rattle.cfi_unit.specs.declared.reading.ReadFault.TheVariants.{Memory};
ghost use Rattle.cfi_unit.specs.Spots.{AreSpots, IsReadFault};

use crate::reader::next_unit;
use crate::spot::Spot;
use std::alloc::{AllocFailed, Global};

/// Why words are not read as units.
#[derive(Clone, Copy, Debug, PartialEq, Eq)]
pub enum ReadFault {
    /// The words before this one are units, and none begins at it.
    Stops(u32),
    /// There is no memory for them.
    Memory,
}

impl<T: Drop> From<AllocFailed<T>> for ReadFault {
    ghost from_gives = { λ _ e. e ≡ Memory };

    fn from(_error: AllocFailed<T>) -> ReadFault {
        ReadFault::Memory
    }
}

/// The units that the words are, from the first word to the last, each with the word at which it begins.
///
/// The fault is the word at which reading stops, where that is not the end.
pub fn read_units(alloc: Global, words: &[u32]) -> Result<Vec<Spot>, ReadFault>
    requires { length words.now < 2 ^ 32 }
    ensures ok { IfOk result (λ spots. AreSpots words.now spots.items) }
    ensures fault { IfErr result (IsReadFault words.now) }
{
    let mut spots = Vec::new(alloc);
    let mut at = 0;
    while at < words.len() as u32 {
        let Some((unit, size)) = next_unit(words, at) else {
            return Err(ReadFault::Stops(at));
        };
        spots.push(Spot { at, unit })?;
        at += size;
    }
    Ok(spots)
}
