//! Where functions lie, and how they end.

ghost use Rattle.std.specs.Prelude.{◌≡◌, ℕ, ◌+◌, ◌*◌, ◌<◌, ◌^◌, length, IfSome, IfNone, IsTrue, ◌↔◌};
ghost use Rattle.elf_read.specs.Lists.{Each, IsFirstBreak, own_number};
ghost use Rattle.cfi_verify.specs.Functions.{IsIdle, FunctionFits, FitsBehind, IsIdleBehind, may_be_last, EndsWell};
ghost use Rattle.cfi_verify.specs.inner.Places.{AreRising, AreInRange, FollowsWithin, IsFirstUnfit};

use crate::search::{begins_at, number_at};
use cfi_aux::{Placed, PlacedFunction};
use cfi_unit::{Spot, Unit};
use rv_insn::{ImmOp, Insn};

/// `addi x0,x0,0`, which may stand between functions.
const IDLE: Unit = Unit::Plain(Insn::OpImm {
    op: ImmOp::Addi,
    rd: 0,
    rs1: 0,
    imm: 0,
});

// Whether each unit from one word up to another is padding.
fn is_idle(spots: &[Spot], from: u32, to: u32) -> bool
    requires { AreRising spots.now }
    ensures { IsTrue result ↔ IsIdle spots.now from to }
{
    let low = number_at(spots, from);
    let high = number_at(spots, to);
    for number in low..high {
        if spots[number].unit != IDLE {
            return false;
        }
    }
    true
}

// Whether a function has words, which come after the word `before` and end at or before the word `length`.
fn is_within(before: u32, length: usize, function: &PlacedFunction) -> bool
    ensures { IsTrue result ↔ FollowsWithin before length function.now }
{
    let end = u64::from(function.first) + u64::from(function.count);
    function.count != 0 && before <= function.first && end <= length as u64
}

// Whether a function fits behind one that ends before the word `before`.
fn fits_behind(placed: &Placed, spots: &[Spot], before: u32, function: &PlacedFunction) -> bool
    requires words { 4 * length placed.now.words < 2 ^ 32 }
    requires rising { AreRising spots.now }
    ensures { IsTrue result ↔ FunctionFits placed.now spots.now before function.now }
{
    let length = placed.words.as_slice().len();
    if !is_within(before, length, function) {
        return false;
    }
    let end = function.first + function.count;
    begins_at(spots, function.first)
        && (end as usize == length || begins_at(spots, end))
        && placed.types.is_callable(function.ty)
        && is_idle(spots, before, function.first)
}

/// The first function that does not fit; the number of functions where it is what stands behind the last one.
pub fn first_unfit(placed: &Placed, spots: &[Spot]) -> Option<u32>
    requires words { 4 * length placed.now.words < 2 ^ 32 }
    requires count { length placed.now.functions < 2 ^ 32 }
    requires rising { AreRising spots.now }
    ensures some { IfSome result (IsFirstUnfit placed.now spots.now) }
    ensures none { IfNone result (Each placed.now.functions (FitsBehind placed.now spots.now)) }
    ensures idle { IfNone result (IsIdleBehind placed.now spots.now) }
{
    let functions = placed.functions.as_slice();
    let mut before = 0;
    for (number, function) in functions.iter().enumerate() {
        if !fits_behind(placed, spots, before, function) {
            return Some(number as u32);
        }
        before = function.first + function.count;
    }
    if is_idle(spots, before, placed.words.as_slice().len() as u32) {
        return None;
    }
    Some(functions.len() as u32)
}

// Whether a unit is a jump or a check that does not link.
fn may_be_last(unit: Unit) -> bool
    ensures { result ≡ may_be_last unit }
{
    matches!(
        unit,
        Unit::Jump { link: false, .. } | Unit::Check { link: false, .. }
    )
}

// Whether the last unit of a function is a jump or a check that does not link.
fn ends_well(spots: &[Spot], function: &PlacedFunction) -> bool
    requires fits { function.now.first + function.now.count < 2 ^ 32 }
    requires rising { AreRising spots.now }
    ensures { (number : ℕ) → IsTrue result ↔ EndsWell spots.now number function.now }
{
    let number = number_at(spots, function.first + function.count);
    if number == 0 {
        return false;
    }
    let last = spots[number - 1];
    function.first <= last.at && may_be_last(last.unit)
}

/// The first function that does not end in a jump or a check that does not link.
pub fn first_open(functions: &[PlacedFunction], spots: &[Spot]) -> Option<u32>
    requires count { length functions.now < 2 ^ 32 }
    requires fits { AreInRange functions.now }
    requires rising { AreRising spots.now }
    ensures some { IfSome result (IsFirstBreak functions.now own_number (EndsWell spots.now)) }
    ensures none { IfNone result (Each functions.now (EndsWell spots.now)) }
{
    for (number, function) in functions.iter().enumerate() {
        if !ends_well(spots, function) {
            return Some(number as u32);
        }
    }
    None
}
