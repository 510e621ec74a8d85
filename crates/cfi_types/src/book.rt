//! Type tables whose types are compared.

ghost use Rattle.std.specs.Prelude.{◌≡◌, ◌<◌, ◌^◌, [], ◌∷◌, ◌++◌, length, take, OnOk, OnErr, IfOk};
ghost use Rattle.std.specs.List.{flat_map, AllByRecursion};
ghost use Rattle.cfi_type_table.specs.Spelling.{AreTypes};
ghost use Rattle.cfi_types.specs.Classes.{AreClasses, table_of};

use crate::classes::{Classes, by_table};
use crate::extending::row_behind;
use crate::graph::join;
use crate::linked::Lent;
use crate::numbering::number;
use crate::refining::leaders;
use cfi_type_table::{TypeNode, TypeTable};
use std::alloc::{AllocError, Global};
use std::marker::Model;

// The numbers of the tables' nodes.
pub(crate) fn classes_of(alloc: Global, tables: &[Lent]) -> Result<Classes, AllocError>
    requires fits { length (flat_map (λ xs. xs) tables.now) < 2 ^ 32 }
    requires types { AllByRecursion AreTypes tables.now }
    ensures { IfOk result (λ classes. AreClasses tables.now classes) }
{
    let nodes = join(alloc, tables)?;
    let leaders = leaders(alloc, nodes.as_slice())?;
    let numbers = number(alloc, leaders.as_slice())?;
    by_table(alloc, tables, numbers.as_slice())
}

/// Type tables in the order in which they were added. They stand elsewhere: the book has no copies.
#[derive(Debug, Drop)]
pub struct TypeBook<'a> {
    tables: Vec<Lent<'a>>,
}

impl<'a> Model for TypeBook<'a> {
    ghost use Rattle.std.specs.Prelude.{List};
    ghost use Rattle.std.specs.List.{AllByRecursion};
    ghost use Rattle.cfi_type_table.specs.Node.{Node};
    ghost use Rattle.cfi_type_table.specs.Spelling.{AreTypes};

    ghost Value = { List (List Node) };

    ghost view = { λ book. book.tables.items };

    ghost invariant = { λ book. AllByRecursion AreTypes book.tables.items };
}

impl<'a> TypeBook<'a> {
    /// No tables. The book keeps the allocator.
    pub fn new(alloc: Global) -> TypeBook<'a>
        ensures { result ≡ [] }
    {
        TypeBook {
            tables: Vec::new(alloc),
        }
    }

    /// Adds a table at the end.
    pub fn add(&mut self, table: &'a TypeTable) -> Result<(), AllocError>
        requires { AreTypes table.now }
        ensures ok { OnOk result (self.new ≡ self.old ++ table.now ∷ []) }
        ensures err { OnErr result (self.new ≡ self.old) }
    {
        self.tables.push(Lent::new(table))?;
        Ok(())
    }

    /// How many tables there are.
    pub fn count(&self) -> usize
        ensures { result ≡ length self.now }
    {
        self.tables.len()
    }

    /// The nodes of the table of this number, from 0.
    pub fn nodes(&self, table: usize) -> &'a [TypeNode]
        requires { table < length self.now }
        ensures nodes { result.now ≡ table_of self.now table }
        ensures types { AreTypes result.now }
    {
        self.tables[table].nodes()
    }

    /// A number for each node of each table: two nodes have one number exactly where their types are
    /// equal, to every depth. Numbers are given from 0, in order of first occurrence.
    ///
    /// The number of all nodes is below 2^32. MCFI, type matching: equal by structure.
    pub fn classes(&self) -> Result<Classes, AllocError>
        requires fits { length (flat_map (λ xs. xs) self.now) < 2 ^ 32 }
        ensures { IfOk result (λ classes. AreClasses self.now classes) }
    {
        classes_of(*self.tables.allocator(), self.tables.as_slice())
    }

    /// The numbers of the tables' nodes and of those of one more table behind them.
    ///
    /// `kept` is `classes` of this book: its numbers stay. The number of all nodes is below 2^32. The table is compared
    /// only with tables that may have a type of it.
    pub fn classes_with(&self, table: &'a TypeTable, kept: &Classes) -> Result<Classes, AllocError>
        requires types { AreTypes table.now }
        requires fits { length (flat_map (λ xs. xs) (self.now ++ table.now ∷ [])) < 2 ^ 32 }
        requires kept { AreClasses self.now kept.now }
        ensures classes { IfOk result (AreClasses (self.now ++ table.now ∷ [])) }
        ensures stay { IfOk result (λ all. take (length kept.now) all ≡ kept.now) }
    {
        let alloc = *self.tables.allocator();
        let row = row_behind(alloc, self.tables.as_slice(), kept, &Lent::new(table))?;
        kept.with_row(alloc, row)
    }

    /// Adds a table at the end, and its nodes' numbers to those of the tables before it.
    ///
    /// `kept` is `classes` of this book, and is that of the longer one then. The number of all nodes is below 2^32. The
    /// table is compared only with tables that may have a type of it. Where memory is missing, both are as before.
    pub fn extend(&mut self, table: &'a TypeTable, kept: &mut Classes) -> Result<(), AllocError>
        requires types { AreTypes table.now }
        requires fits { length (flat_map (λ xs. xs) (self.old ++ table.now ∷ [])) < 2 ^ 32 }
        requires kept { AreClasses self.old kept.old }
        ensures ok { OnOk result (self.new ≡ self.old ++ table.now ∷ []) }
        ensures classes { OnOk result (AreClasses self.new kept.new) }
        ensures err { OnErr result (self.new ≡ self.old) }
        ensures same { OnErr result (kept.new ≡ kept.old) }
    {
        let alloc = *self.tables.allocator();
        let lent = Lent::new(table);
        let row = row_behind(alloc, self.tables.as_slice(), kept, &lent)?;
        kept.rows.reserve(1)?;
        self.tables.push(lent)?;
        kept.rows.push_reserved(row);
        Ok(())
    }
}
