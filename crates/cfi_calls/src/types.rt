//! Which types of tables are equal, and which are wider than others.

ghost use Rattle.std.specs.Prelude.{IfOk, IfSome, [], ◌∷◌};
ghost use Rattle.cfi_type_table.specs.Spelling.{AreTypes};
ghost use Rattle.cfi_types.specs.Classes.{AreClasses};

use cfi_fits::widenings;
use cfi_type_table::{TypeTable, read_types};
use cfi_types::{Classes, TypeBook};
use std::alloc::{AllocError, Global};

// The table of these words.
fn table(alloc: Global, words: &[u32]) -> Result<Option<TypeTable>, AllocError>
    ensures { IfOk result (λ found. IfSome found (λ xs. AreTypes xs)) }
{
    let mut bytes = Vec::new(alloc);
    for word in words {
        bytes.extend_from_slice(&word.to_le_bytes())?;
    }
    Ok(read_types(alloc, bytes.as_slice()).ok())
}

// The numbers of the nodes of two tables, one table after the other.
fn numbers(
    alloc: Global,
    classes: &Classes,
    first: &TypeTable,
    second: &TypeTable,
) -> Result<Vec<u32>, AllocError>
    requires first { AreTypes first.now }
    requires second { AreTypes second.now }
    requires classes { AreClasses (first.now ∷ second.now ∷ []) classes.now }
{
    let mut all = Vec::new(alloc);
    for node in 0..first.nodes().len() {
        all.push(classes.of(0, node as u32))?;
    }
    for node in 0..second.nodes().len() {
        all.push(classes.of(1, node as u32))?;
    }
    Ok(all)
}

// The classes of two tables.
fn classes(alloc: Global, first: &TypeTable, second: &TypeTable) -> Result<Vec<u32>, AllocError>
    requires first { AreTypes first.now }
    requires second { AreTypes second.now }
{
    let mut book = TypeBook::new(alloc);
    book.add(first)?;
    book.add(second)?;
    let classes = book.classes()?;
    numbers(alloc, &classes, first, second)
}

// The same, where the second table comes to a book of the first one and its classes.
fn extended(alloc: Global, first: &TypeTable, second: &TypeTable) -> Result<Vec<u32>, AllocError>
    requires first { AreTypes first.now }
    requires second { AreTypes second.now }
{
    let mut book = TypeBook::new(alloc);
    book.add(first)?;
    let mut classes = book.classes()?;
    book.extend(second, &mut classes)?;
    numbers(alloc, &classes, first, second)
}

// Whether the nodes of two tables have these classes.
fn are_classes(
    alloc: Global,
    first: &[u32],
    second: &[u32],
    wanted: &[u32],
) -> Result<bool, AllocError> {
    let Some(one) = table(alloc, first)? else {
        return Ok(false);
    };
    let Some(other) = table(alloc, second)? else {
        return Ok(false);
    };
    let found = classes(alloc, &one, &other)?;
    let grown = extended(alloc, &one, &other)?;
    Ok(found.as_slice() == wanted && grown.as_slice() == wanted)
}

/// Types of two tables that are equal, and types that are not; also where the second table comes later.
pub fn equal_types(alloc: Global) -> Result<bool, AllocError> {
    // Ptr(1), Struct(0, 2), Int(32, 1), and the same in another order.
    let list = [3, 3, 1, 1, 5, 2, 0, 2, 1, 2, 32, 1];
    let same = [3, 1, 2, 32, 1, 5, 2, 2, 0, 3, 1, 1];
    let longer = [3, 1, 2, 32, 1, 5, 3, 2, 0, 0, 3, 1, 1];
    // Numbers come in order of first occurrence, and not in the order of kinds.
    let function = [2, 7, 1, 1, 0, 0];
    let pointer = [2, 0, 0, 3, 1, 0];
    Ok(
        are_classes(alloc, &list, &same, &[0, 1, 2, 2, 1, 0])?
            && are_classes(alloc, &list, &longer, &[0, 1, 2, 2, 3, 4])?
            && are_classes(alloc, &function, &pointer, &[0, 1, 1, 2])?,
    )
}

// Whether these are the links between the classes of a table's types.
fn are_widenings(alloc: Global, words: &[u32], wanted: &[(u32, u32)]) -> Result<bool, AllocError> {
    let Some(types) = table(alloc, words)? else {
        return Ok(false);
    };
    let mut book = TypeBook::new(alloc);
    book.add(&types)?;
    let classes = book.classes()?;
    let links = widenings(alloc, &book, &classes)?;
    let mut agree = links.len() == wanted.len();
    for (link, ends) in links.iter().zip(wanted) {
        agree = agree && (link.from, link.to) == *ends;
    }
    Ok(agree)
}

/// Types with variable arguments, whose pointers reach functions of other types too.
pub fn wider_types(alloc: Global) -> Result<bool, AllocError> {
    // Int(32, 1), Func(0, 0), Func(0, 0, 0), VarFunc(0, 0), Func(0): the pointer reaches the nodes 1 and 2.
    let one = [
        5, 1, 2, 32, 1, 7, 2, 0, 0, 7, 3, 0, 0, 0, 8, 2, 0, 0, 7, 1, 0,
    ];
    // VarFunc(1, 1), Int(32, 1), VarFunc(1), Func(1, 1, 0), Func(3, 1): the last has another result.
    let two = [
        5, 8, 2, 1, 1, 1, 2, 32, 1, 8, 1, 1, 7, 3, 1, 1, 0, 7, 2, 3, 1,
    ];
    let none = [3, 1, 2, 32, 1, 7, 1, 0, 7, 2, 0, 0];
    Ok(
        are_widenings(alloc, &one, &[(1, 3), (2, 3)])?
            && are_widenings(alloc, &two, &[(0, 2), (3, 0)])?
            && are_widenings(alloc, &none, &[])?,
    )
}
