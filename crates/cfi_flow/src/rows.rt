//! Links by where they begin.

ghost use Rattle.std.specs.Prelude.{◌≡◌, ◌<◌, ◌++◌, ◌∷◌, [], length, replicate, slice_set, slice_index_or, IfOk, OnOk};
ghost use Rattle.cfi_flow.specs.Rows.{AreRows};
ghost use Rattle.cfi_flow.specs.Flow.{BeginBelow};

use crate::links::Link;
use std::alloc::{AllocError, Global};
use std::marker::Model;

/// For each number from 0 a list of numbers.
///
/// Only rows that hold something take a list: most hold nothing.
#[derive(Debug, Drop)]
pub struct Rows {
    // For each row one more than the place of its list, or 0.
    places: Vec<usize>,
    lists: Vec<Vec<u32>>,
}

impl Model for Rows {
    ghost use Rattle.std.specs.Prelude.{ℕ, List, map, length};
    ghost use Rattle.cfi_flow.specs.inner.Lists.{HaveOwnLists, row_in};

    ghost Value = { List (List ℕ) };

    ghost view = { λ r. map (row_in (map (λ list. list.items) r.lists.items)) r.places.items };

    ghost invariant = { λ r. HaveOwnLists r.places.items (length r.lists.items) };
}

impl Rows {
    // So many empty rows.
    fn empty(alloc: Global, count: u32) -> Result<Rows, AllocError>
        ensures { IfOk result (λ rows. rows ≡ replicate count []) }
    {
        let places = vec![in alloc; 0; count as usize]?;
        Ok(Rows {
            places,
            lists: Vec::new(alloc),
        })
    }

    // Adds a number at the end of a row.
    fn add(&mut self, alloc: Global, row: u32, number: u32) -> Result<(), AllocError>
        requires { row < length self.old }
        ensures { OnOk result
            (self.new ≡ slice_set self.old row (slice_index_or self.old row [] ++ number ∷ [])) }
    {
        let place = self.places[row as usize];
        if place > 0 {
            let list = &mut self.lists[place - 1];
            list.push(number)?;
            return Ok(());
        }
        let mut list = Vec::new(alloc);
        list.push(number)?;
        self.lists.push(list)?;
        self.places[row as usize] = self.lists.len();
        Ok(())
    }

    /// How many rows there are.
    pub fn count(&self) -> usize
        ensures { result ≡ length self.now }
    {
        self.places.len()
    }

    /// The numbers of a row.
    pub fn row(&self, row: u32) -> &[u32]
        requires { row < length self.now }
        ensures { result.now ≡ slice_index_or self.now row [] }
    {
        match self.places[row as usize] {
            0 => &[],
            place => self.lists[place - 1].as_slice(),
        }
    }
}

/// Where the links from each number below the count lead, in their order.
pub fn rows_of(alloc: Global, count: u32, links: &[Link]) -> Result<Rows, AllocError>
    requires { BeginBelow count links.now }
    ensures { IfOk result (λ rows. AreRows count links.now rows) }
{
    let mut rows = Rows::empty(alloc, count)?;
    for link in links {
        rows.add(alloc, link.from, link.to)?;
    }
    Ok(rows)
}
