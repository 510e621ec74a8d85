//! The command that runs drawn modules.

ghost use Rattle.std.specs.Prelude.{◌≡◌, ◌∷◌, [], All, codes};
ghost use Rattle.cfi_request.specs.Words.{IsOperand};
ghost use Rattle.cfi_request.specs.Command.{IsReading};
ghost use Rattle.cfi_request.specs.inner.Drawing.{command_by, count_in};

use crate::command::Command;
use cfi_gen::{MAX_COUNT, MIN_COUNT};
use cfi_text::{read_dec, read_small_dec};

// The number of modules that the word says.
fn count_of(word: &str) -> Option<u32>
    ensures { result ≡ count_in word.now }
{
    let count = read_small_dec(word.as_bytes())?;
    if MIN_COUNT <= count && count <= MAX_COUNT {
        Some(count)
    } else {
        None
    }
}

// The command of a seed and a number of modules, where both are there.
fn drawn(seed: Option<u64>, count: Option<u32>) -> Option<Command>
    ensures { result ≡ command_by seed count }
{
    Some(Command::Gen {
        seed: seed?,
        count: count?,
    })
}

/// The command that runs as many modules as the second word says, drawn of the seed that the first one says.
///
/// A seed is a number below 2 ^ 64, in decimal. `None` where a word is no such number, or has a zero ahead, or there
/// are fewer than 2 modules or more than 32.
pub fn drawing(seed: &str, count: &str) -> Option<Command>
    requires operands { All IsOperand (seed.now ∷ count.now ∷ []) }
    ensures reading { IsReading (codes "gen" ∷ seed.now ∷ count.now ∷ []) result }
{
    drawn(read_dec(seed.as_bytes()), count_of(count))
}
