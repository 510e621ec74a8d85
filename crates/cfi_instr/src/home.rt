//! The function in which an offset lies, where functions are in order.

ghost use Rattle.std.specs.Prelude.{◌≡◌};
ghost use Rattle.std.specs.List.{slice_get};
ghost use Rattle.cfi_aux.specs.Extent.{byte_end};
ghost use Rattle.cfi_aux.specs.Splits.{SplitsBelow, SplitsUpTo};
ghost use Rattle.cfi_instr.specs.inner.Functions.{are_together, is_entry};
ghost use Rattle.cfi_instr.specs.inner.Homes.{AreApart, has_both, begins_at};

use crate::functions::covers;
use cfi_aux::Function;

// The number of the first function that ends after the offset; their number where none does.
fn number_ending(functions: &[Function], offset: usize) -> usize
    requires { AreApart functions.now }
    ensures { SplitsUpTo byte_end functions.now offset result }
{
    functions.partition_point(|f| f.offset as usize + f.length as usize <= offset)
}

// The number of the first function that begins at the offset or after it; their number where none does.
fn number_beginning(functions: &[Function], offset: usize) -> usize
    requires { AreApart functions.now }
    ensures { SplitsBelow (λ f. f.offset) functions.now offset result }
{
    functions.partition_point(|f| (f.offset as usize) < offset)
}

// Whether there is a function of the number, and it has both offsets.
fn has_both(functions: &[Function], number: usize, a: usize, b: usize) -> bool
    ensures { result ≡ has_both (slice_get functions.now number) a b }
{
    match functions.get(number) {
        Some(function) => covers(a, function) && covers(b, function),
        None => false,
    }
}

// Whether there is a function of the number, and it begins at the offset.
fn begins_at(functions: &[Function], number: usize, offset: usize) -> bool
    ensures { result ≡ begins_at (slice_get functions.now number) offset }
{
    match functions.get(number) {
        Some(function) => function.offset as usize == offset,
        None => false,
    }
}

/// Whether one function has both offsets.
pub(crate) fn are_together(functions: &[Function], a: usize, b: usize) -> bool
    requires { AreApart functions.now }
    ensures { result ≡ are_together functions.now a b }
{
    let number = number_ending(functions, a);
    has_both(functions, number, a, b)
}

/// Whether a function begins at the offset.
pub(crate) fn is_entry(functions: &[Function], offset: usize) -> bool
    requires { AreApart functions.now }
    ensures { result ≡ is_entry functions.now offset }
{
    let number = number_beginning(functions, offset);
    begins_at(functions, number, offset)
}
