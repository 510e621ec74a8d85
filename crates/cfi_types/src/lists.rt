//! Lists by number.

ghost use Rattle.std.specs.Prelude.{◌≡◌, ◌<◌, ◌++◌, ◌∷◌, [], length, replicate, slice_set, slice_index_or, IfOk, OnOk};
ghost use Rattle.cfi_word.specs.declared.limits.TheConstants.{MAX_FIELDS};

use cfi_word::limits::MAX_FIELDS;
use std::alloc::{AllocError, Global};
use std::marker::Model;

/// For each number from 0 a list.
#[derive(Drop)]
pub(crate) struct Lists<T> {
    rows: Vec<Vec<T>>,
}

impl<T> Model for Lists<T> {
    ghost use Rattle.std.specs.Prelude.{List, map};

    ghost Value = { List (List T) };

    ghost view = { λ l. map (λ row. row.items) l.rows.items };
}

impl<T: Drop> Lists<T> {
    // So many empty lists.
    pub(crate) fn new(alloc: Global, count: usize) -> Result<Lists<T>, AllocError>
        ensures { IfOk result (λ lists. lists ≡ replicate count []) }
    {
        let mut rows = Vec::with_capacity(alloc, count)?;
        for _ in 0..count {
            rows.push(Vec::new(alloc))?;
        }
        Ok(Lists { rows })
    }

    // Empty lists, each with room for so many items.
    pub(crate) fn with_room(alloc: Global, room: &[u32]) -> Result<Lists<T>, AllocError>
        ensures { IfOk result (λ lists. lists ≡ replicate (length room.now) []) }
    {
        let mut rows = Vec::with_capacity(alloc, room.len())?;
        for number in 0..room.len() {
            rows.push(Vec::with_capacity(alloc, room[number] as usize)?)?;
        }
        Ok(Lists { rows })
    }

    // Adds an item at the end of a list.
    pub(crate) fn add(&mut self, number: u32, item: T) -> Result<(), AllocError>
        requires { number < length self.old }
        ensures { OnOk result
            (self.new
            ≡ slice_set self.old number (slice_index_or self.old number [] ++ item ∷ [])) }
    {
        let row = &mut self.rows[number as usize];
        row.push(item)?;
        Ok(())
    }

    // Leaves a list empty, with its memory.
    pub(crate) fn clear(&mut self, number: u32)
        requires { number < length self.old }
        ensures { self.new ≡ slice_set self.old number [] }
    {
        let row = &mut self.rows[number as usize];
        row.clear();
    }

    // The list of this number.
    pub(crate) fn row(&self, number: u32) -> &[T]
        requires { number < length self.now }
        ensures { result.now ≡ slice_index_or self.now number [] }
    {
        self.rows[number as usize].as_slice()
    }
}

// The list after the one of a place, empty after the last.
pub(crate) fn row_after(lists: &Lists<u32>, place: u32) -> &[u32]
    requires len { length lists.now ≡ MAX_FIELDS }
    requires place { place < MAX_FIELDS }
{
    if place + 1 == MAX_FIELDS {
        return &[];
    }
    lists.row(place + 1)
}
