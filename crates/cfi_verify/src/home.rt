//! The function in which a word lies.

ghost use Rattle.std.specs.Prelude.{◌≡◌, Some, IfSome, IsTrue, ◌↔◌};
ghost use Rattle.std.specs.List.{Contains};
ghost use Rattle.cfi_aux.specs.declared.placed.PlacedFunction.{PlacedFunction as Function};
ghost use Rattle.cfi_aux.specs.Extent.{end_of, LiesIn};
ghost use Rattle.cfi_aux.specs.Splits.{SplitsUpTo};
ghost use Rattle.cfi_verify.specs.Target.{IsAtHome};
ghost use Rattle.cfi_verify.specs.inner.Places.{AreRising, AreFunctionsApart, AreInRange, IsHome};

use crate::search::begins_at;
use cfi_aux::PlacedFunction;
use cfi_unit::Spot;

// The number of the first function that ends after the word; their number where none does.
fn number_ending(functions: &[PlacedFunction], at: u32) -> usize
    requires { AreFunctionsApart functions.now }
    ensures { SplitsUpTo end_of functions.now at result }
{
    functions.partition_point(|f| u64::from(f.first) + u64::from(f.count) <= u64::from(at))
}

// The first word of the function in which a word lies, and the word after its last.
fn home_of(functions: &[PlacedFunction], at: u32) -> Option<(u32, u32)>
    requires order { AreFunctionsApart functions.now }
    requires fits { AreInRange functions.now }
    ensures some { IfSome result (λ home. IsHome functions.now at home.0 home.1) }
    ensures only { (f : Function) → Contains functions.now f → LiesIn f at →
        result ≡ Some (f.first, end_of f) }
{
    let number = number_ending(functions, at);
    if number == functions.len() {
        return None;
    }
    let home = &functions[number];
    if at < home.first {
        return None;
    }
    Some((home.first, home.first + home.count))
}

/// Whether a unit begins at the word `to`, and lies in the same function as the word `at`.
pub fn is_at_home(functions: &[PlacedFunction], spots: &[Spot], at: u32, to: u64) -> bool
    requires order { AreFunctionsApart functions.now }
    requires fits { AreInRange functions.now }
    requires rising { AreRising spots.now }
    ensures { IsTrue result ↔ IsAtHome functions.now spots.now at to }
{
    let Some((first, end)) = home_of(functions, at) else {
        return false;
    };
    if to < u64::from(first) {
        return false;
    }
    if u64::from(end) <= to {
        return false;
    }
    begins_at(spots, to as u32)
}
