//! Units by the words at which they stand.

ghost use Rattle.std.specs.Prelude.{IsTrue, ◌↔◌};
ghost use Rattle.cfi_aux.specs.Splits.{SplitsBelow};
ghost use Rattle.cfi_unit.specs.Spots.{BeginsUnit};
ghost use Rattle.cfi_verify.specs.inner.Places.{AreRising};

use cfi_unit::Spot;

/// The number of the first unit that begins at the word or after it; their number where none does.
pub fn number_at(spots: &[Spot], at: u32) -> usize
    requires { AreRising spots.now }
    ensures { SplitsBelow (λ s. s.at) spots.now at result }
{
    spots.partition_point(|spot| spot.at < at)
}

/// Whether a unit begins at the word.
pub fn begins_at(spots: &[Spot], at: u32) -> bool
    requires { AreRising spots.now }
    ensures { IsTrue result ↔ BeginsUnit spots.now at }
{
    let number = number_at(spots, at);
    if number == spots.len() {
        return false;
    }
    spots[number].at == at
}
