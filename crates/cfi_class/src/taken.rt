//! Which class numbers are taken, and which is the next one that is not.

ghost use Rattle.std.specs.Prelude.{◌≡◌, ℕ, ◌<◌, ◌^◌, false, length, slice_index, slice_index_or, IfOk};
ghost use Rattle.cfi_class.specs.declared.nodes.TheConstants.{CLASSES};
ghost use Rattle.cfi_class.specs.inner.Taken.{MarksTaken, IsNextFree};

use crate::nodes::CLASSES;
use std::alloc::{AllocError, Global};

// So many marks of numbers that are not taken.
fn unmarked(alloc: Global, count: usize) -> Result<Vec<bool>, AllocError>
    ensures len { IfOk result (λ marks. length marks.items ≡ count) }
    ensures none { IfOk result (λ marks.
        (number : ℕ) → slice_index_or marks.items number false ≡ false) }
{
    let marks = vec![in alloc; false; count]?;
    Ok(marks)
}

// By number, whether one of the numbers is it.
pub(crate) fn taken_numbers(alloc: Global, numbers: &[u32]) -> Result<Vec<bool>, AllocError>
    requires { (place : ℕ) → place < length numbers.now → slice_index numbers.now place < CLASSES }
    ensures len { IfOk result (λ marks. length marks.items ≡ CLASSES) }
    ensures ok { IfOk result (λ marks. MarksTaken numbers.now marks.items) }
{
    let mut taken = unmarked(alloc, CLASSES as usize)?;
    for number in numbers {
        taken[*number as usize] = true;
    }
    Ok(taken)
}

// The first number from `from` on that is not marked.
pub(crate) fn next_free(marks: &[bool], from: u32) -> u32
    requires { length marks.now < 2 ^ 32 }
    ensures { IsNextFree marks.now from result }
{
    for number in from..marks.len() as u32 {
        if !marks[number as usize] {
            return number;
        }
    }
    from.max(marks.len() as u32)
}
