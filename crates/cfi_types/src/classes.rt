//! The classes of the types of several tables.

ghost use Rattle.std.specs.Prelude.{◌≡◌, ◌<◌, [], ◌∷◌, ◌++◌, length, map, slice_index_or, IfOk};
ghost use Rattle.std.specs.List.{flat_map};
ghost use Rattle.cfi_types.specs.Classes.{class_of};

use crate::linked::Lent;
use std::alloc::{AllocError, Global};
use std::marker::Model;

/// A number for each node of several tables: equal types alone have one number.
#[derive(Debug, Drop)]
pub struct Classes {
    pub(crate) rows: Vec<Vec<u32>>,
}

impl Model for Classes {
    ghost use Rattle.std.specs.Prelude.{ℕ, List, map};

    ghost Value = { List (List ℕ) };

    ghost view = { λ c. map (λ row. row.items) c.rows.items };
}

impl Classes {
    /// The number of a node: that of its table and its own in the table, both from 0.
    pub fn of(&self, table: u32, node: u32) -> u32
        requires table { table < length self.now }
        requires node { node < length (slice_index_or self.now table []) }
        ensures { result ≡ class_of self.now table node }
    {
        let row = &self.rows[table as usize];
        row[node as usize]
    }

    /// The numbers of the nodes of the table of this number, from 0.
    pub fn row(&self, table: usize) -> &[u32]
        requires { table < length self.now }
        ensures { result.now ≡ slice_index_or self.now table [] }
    {
        self.rows[table].as_slice()
    }

    /// A copy.
    pub fn copied(&self, alloc: Global) -> Result<Classes, AllocError>
        ensures { IfOk result (λ all. all ≡ self.now) }
    {
        let mut rows = Vec::with_capacity(alloc, self.rows.len())?;
        for row in &self.rows {
            rows.push(Vec::from_slice(alloc, row.as_slice())?)?;
        }
        Ok(Classes { rows })
    }

    // A copy with one more table's numbers.
    pub(crate) fn with_row(&self, alloc: Global, row: Vec<u32>) -> Result<Classes, AllocError>
        ensures { IfOk result (λ all. all ≡ self.now ++ row.items ∷ []) }
    {
        let mut rows = self.copied(alloc)?.rows;
        rows.push(row)?;
        Ok(Classes { rows })
    }
}

// The numbers of the tables' nodes, table by table.
pub(crate) fn by_table(
    alloc: Global,
    tables: &[Lent],
    numbers: &[u32],
) -> Result<Classes, AllocError>
    requires { length numbers.now ≡ length (flat_map (λ xs. xs) tables.now) }
    ensures numbers { IfOk result (λ classes. flat_map (λ row. row) classes ≡ numbers.now) }
    ensures shape { IfOk result (λ classes. map length classes ≡ map length tables.now) }
{
    let mut rows = Vec::with_capacity(alloc, tables.len())?;
    let mut rest = numbers;
    for table in tables {
        let (row, after) = rest.split_at(table.nodes().len());
        rows.push(Vec::from_slice(alloc, row)?)?;
        rest = after;
    }
    Ok(Classes { rows })
}
