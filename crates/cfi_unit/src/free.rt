ghost use Rattle.std.specs.Prelude.{◌≡◌, ◌↔◌, IsTrue, length, take};
ghost use Rattle.cfi_unit.specs.Unit.{IsFree};

use crate::unit::FREE_REGISTERS;

/// Whether a guest's own instructions may name the register.
pub fn is_free(register: u32) -> bool
    ensures { IsTrue result ↔ IsFree register }
{
    register < FREE_REGISTERS
}

/// Whether a list of words begins with another.
pub fn begins_with(words: &[u32], front: &[u32]) -> bool
    ensures { IsTrue result ↔ (take (length front.now) words.now ≡ front.now) }
{
    words.starts_with(front)
}
