//! The numbers of one more table's nodes, from those of the tables before it.

ghost use Rattle.std.specs.Prelude.{◌≡◌, ℕ, ◌+◌, ◌-◌, ◌<◌, ◌≤◌, ◌^◌, [], ◌∷◌, ◌++◌, length, map, slice_index, slice_index_or, All, IfOk, OnOk};
ghost use Rattle.std.specs.List.{flat_map, AllByRecursion};
ghost use Rattle.cfi_type_table.specs.Spelling.{AreTypes};
ghost use Rattle.cfi_types.specs.Classes.{AreClasses, InOrder};
ghost use Rattle.cfi_types.specs.inner.Extending.{AreBack, back_from, renumbered};

use crate::book::classes_of;
use crate::classes::Classes;
use crate::linked::Lent;
use crate::near::{Near, near_tables};
use std::alloc::{AllocError, Global};

// Adds the kept numbers of the classes that come with a near table.
fn put_back(back: &mut Vec<u32>, own: &[u32], kept: &[u32]) -> Result<(), AllocError>
    requires { length kept.now ≡ length own.now }
    ensures { OnOk result (back.new.items ≡ back_from back.old.items own.now kept.now) }
{
    for a in 0..own.len() {
        if own[a] as usize == back.len() {
            back.push(kept[a])?;
        }
    }
    Ok(())
}

// The kept number of each class that near tables have, by its number among them. These are the tables of such numbers.
fn back_of(
    alloc: Global,
    own: &Classes,
    kept: &Classes,
    numbers: &[usize],
) -> Result<Vec<u32>, AllocError>
    requires few { length numbers.now ≤ length own.now }
    requires within { All (λ t. t < length kept.now) numbers.now }
    requires shape { (i : ℕ) → i < length numbers.now →
        length (slice_index_or own.now i [])
        ≡ length (slice_index_or kept.now (slice_index numbers.now i) []) }
    requires order { InOrder 0 (flat_map (λ row. row) own.now) }
    ensures { IfOk result (λ back.
        AreBack own.now kept.now numbers.now (length numbers.now) back.items) }
{
    let mut back = Vec::new(alloc);
    for (place, number) in numbers.iter().enumerate() {
        put_back(&mut back, own.row(place), kept.row(*number))?;
    }
    Ok(back)
}

// The number of a class: the kept one, or one after those that are kept.
fn renumber(own: u32, back: &[u32], next: u32) -> u32
    requires { next + (own - length back.now) < 2 ^ 32 }
    ensures { result ≡ renumbered back.now next own }
{
    if (own as usize) < back.len() {
        return back[own as usize];
    }
    next + (own - back.len() as u32)
}

// The numbers of a row.
fn renumber_all(alloc: Global, row: &[u32], back: &[u32], next: u32) -> Result<Vec<u32>, AllocError>
    requires { All (λ own. next + (own - length back.now) < 2 ^ 32) row.now }
    ensures { IfOk result (λ numbers. numbers.items ≡ map (renumbered back.now next) row.now) }
{
    let mut numbers = Vec::with_capacity(alloc, row.len())?;
    for own in row {
        numbers.push(renumber(*own, back, next))?;
    }
    Ok(numbers)
}

// The numbers of a table's nodes, behind those of other tables. It is compared with those alone that may have a type of
// it.
pub(crate) fn row_behind<'a>(
    alloc: Global,
    tables: &[Lent<'a>],
    kept: &Classes,
    table: &Lent<'a>,
) -> Result<Vec<u32>, AllocError>
    requires fits { length (flat_map (λ xs. xs) (tables.now ++ table.now ∷ [])) < 2 ^ 32 }
    requires types { AllByRecursion AreTypes tables.now }
    requires more { AreTypes table.now }
    requires kept { AreClasses tables.now kept.now }
    ensures { IfOk result (λ row.
        AreClasses (tables.now ++ table.now ∷ []) (kept.now ++ row.items ∷ [])) }
{
    let Near {
        tables: mut all,
        numbers,
        next,
    } = near_tables(alloc, tables, kept, table)?;
    all.push(table.again())?;
    let own = classes_of(alloc, all.as_slice())?;
    let back = back_of(alloc, &own, kept, numbers.as_slice())?;
    renumber_all(alloc, own.row(numbers.len()), back.as_slice(), next)
}
