//! The loader: the value under the lock.

ghost use Rattle.std.specs.Prelude.{◌≡◌};

use crate::start::Start;
use cfi_ledger::Books;
use cfi_slips::{SlipsName, Stubs};
use cfi_tables::{Keeper, TableName, Tables};
use std::marker::{Brand, Model};

/// Names one loader: its table, the slips of its guests, its plan, and the modules of that.
pub trait LoaderName: TableName + SlipsName {
    ghost use Rattle.std.specs.Prelude.{List};
    ghost use Rattle.cfi_aux.specs.declared.modules.Module.{Module};
    ghost use Rattle.cfi_plan.specs.declared.plan.Plan.{Plan};

    ghost plan: { Plan };

    ghost modules: { List Module };
}

impl LoaderName for Brand {
    ghost use Rattle.std.specs.Prelude.{[]};
    ghost use Rattle.cfi_plan.specs.Bare.{bare_plan};

    ghost plan = { bare_plan };

    ghost modules = { [] };
}

/// The keeper of the tables, with the plan and its modules, those that are loaded, the journal, the place in the
/// script, and the stubs of the guests' slips.
///
/// Whoever gets it from a lock knows of it what its name says and what its type keeps: that the journal is legal, that
/// the tables are as the journal tells, that the script's lines are those of its calls before the one that is due, and
/// that a guest's lines are those that were told by its slip.
#[derive(Drop)]
pub struct Loader<N: LoaderName> {
    pub(crate) keeper: Keeper<N>,
    pub(crate) books: Books,
    pub(crate) stubs: Stubs<N>,
}

impl<N: LoaderName> Model for Loader<N> {
    ghost use Rattle.cfi_loader.specs.Ledger.{Ledger};
    ghost use Rattle.cfi_loader.specs.inner.Books.{ledger_of, IsLoader};

    ghost Value = { Ledger };

    ghost view = { λ a. ledger_of a.books a.keeper };

    ghost invariant = { λ a. IsLoader N.key N.plan N.modules a.books a.keeper a.stubs };
}

impl<N: LoaderName> Loader<N> {
    /// The loader of a start, and its tables, under the name N, which is the start's. It takes no memory.
    pub fn open(start: Start) -> (Loader<N>, Tables<N>)
        requires table { start.named.table ≡ N.table }
        requires key { start.named.key ≡ N.key }
        requires slips { start.slips ≡ N.slips }
        requires plan { start.ledger.course.plan ≡ N.plan }
        requires modules { start.ledger.course.modules ≡ N.modules }
        ensures { result.0 ≡ start.ledger }
    {
        let Start { blank, pad, books } = start;
        let (tables, keeper) = Tables::<N>::open(blank);
        let stubs = Stubs::open(pad);
        let loader = Loader {
            keeper,
            books,
            stubs,
        };
        (loader, tables)
    }
}
