//! The signatures of the function types of several tables.

ghost use Rattle.std.specs.Prelude.{◌≡◌, ◌<◌, ◌≤◌, ◌+◌, true, length, IfOk, OnOk};
ghost use Rattle.cfi_types.specs.Classes.{AreClasses};
ghost use Rattle.cfi_types.specs.inner.Extending.{next_after, next_at};
ghost use Rattle.cfi_fits.specs.Fits.{IsCallable};
ghost use Rattle.cfi_fits.specs.inner.Signatures.{AreGathered, AreInOrder};

use crate::signature::{Signature, is_callable, signature_of};
use cfi_types::{Classes, TypeBook};
use std::alloc::{AllocError, Global};

// Whether a node is a function's and its class comes with its table: has the number `next` or a greater one.
fn comes(number: u32, next: u64, kind: u32) -> bool
    ensures yes { result ≡ true → IsCallable kind }
    ensures only { IsCallable kind → next ≤ number → result ≡ true }
{
    u64::from(number) >= next && is_callable(kind)
}

// The next number after those of a row, where it was this before them.
fn next_after(next: u64, row: &[u32]) -> u64
    ensures { result ≡ next_after next row.now }
{
    let mut next = next;
    for number in row {
        next = next.max(u64::from(*number) + 1);
    }
    next
}

// Adds the signatures of a table. Those of classes that have come before it are there: such a number is below `next`.
fn add_table(
    alloc: Global,
    signatures: &mut Vec<Signature>,
    book: &TypeBook,
    classes: &Classes,
    table: usize,
    next: u64,
) -> Result<(), AllocError>
    requires classes { AreClasses book.now classes.now }
    requires table { table < length book.now }
    requires next { next ≡ next_at classes.now table }
    requires before { AreGathered book.now classes.now table 0 signatures.old.items }
    ensures { OnOk result (AreGathered book.now classes.now (table + 1) 0 signatures.new.items) }
{
    let row = classes.row(table);
    for (a, node) in book.nodes(table).iter().enumerate() {
        let class = row[a];
        if comes(class, next, node.kind()) {
            signatures.push(signature_of(alloc, row, node, class)?)?;
        }
    }
    Ok(())
}

// The signatures of all tables. A class that has come is not looked at again.
fn gathered(alloc: Global, book: &TypeBook, classes: &Classes) -> Result<Vec<Signature>, AllocError>
    requires { AreClasses book.now classes.now }
    ensures { IfOk result (λ signatures.
        AreGathered book.now classes.now (length book.now) 0 signatures.items) }
{
    let mut signatures = Vec::new(alloc);
    let mut next = 0;
    for table in 0..book.count() {
        add_table(alloc, &mut signatures, book, classes, table, next)?;
        next = next_after(next, classes.row(table));
    }
    Ok(signatures)
}

// The signatures of all tables, in order.
pub(crate) fn in_order(
    alloc: Global,
    book: &TypeBook,
    classes: &Classes,
) -> Result<Vec<Signature>, AllocError>
    requires { AreClasses book.now classes.now }
    ensures all { IfOk result (λ signatures.
        AreGathered book.now classes.now (length book.now) 0 signatures.items) }
    ensures order { IfOk result (λ signatures. AreInOrder signatures.items) }
{
    let mut signatures = gathered(alloc, book, classes)?;
    signatures.sort_unstable();
    Ok(signatures)
}
