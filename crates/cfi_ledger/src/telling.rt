//! The line that tells why a module does not join.

ghost use Rattle.std.specs.Prelude.{◌≡◌, option_map};
ghost use Rattle.cfi_modules.specs.Numbers.{numbers_of};
ghost use Rattle.cfi_valid.specs.NumberedLine.{numbered_line};

use cfi_modules::{FaultNumbers, JoinFault};
use cfi_plan::JournalLine;

/// The line that tells of a fault of joining; None for want of memory.
pub fn join_line(number: u32, fault: &JoinFault) -> Option<JournalLine>
    ensures { result ≡ option_map (numbered_line number) (numbers_of fault.now) }
{
    match fault.numbers() {
        Some(FaultNumbers::Place { number: kind }) => Some(JournalLine::LoadPlace {
            module: number,
            number: kind,
        }),
        Some(
            FaultNumbers::Verify {
                number: kind,
                place,
            },
        ) => Some(JournalLine::LoadVerify {
            module: number,
            number: kind,
            place,
        }),
        None => None,
    }
}
