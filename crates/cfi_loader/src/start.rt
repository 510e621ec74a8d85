//! A plan that is ready to run, before its tables have a name.

ghost use Rattle.std.specs.Prelude.{IfOk, IfErr};
ghost use Rattle.cfi_ledger.specs.Opening.{IsStartFault};
ghost use Rattle.cfi_ledger.specs.Plans.{CanStart};
ghost use Rattle.cfi_loader.specs.Start.{IsStarted};

use cfi_aux::Module;
use cfi_ledger::{Books, StartFault};
use cfi_plan::Plan;
use cfi_slips::Pad;
use cfi_tables::Blank;
use cfi_values::Items;
use std::alloc::Global;
use std::marker::Model;

/// A plan whose start modules are placed and verified, with all the memory that its loader needs at the start.
#[derive(Drop)]
pub struct Start {
    pub(crate) blank: Blank,
    pub(crate) pad: Pad,
    pub(crate) books: Books,
}

impl Model for Start {
    ghost use Rattle.cfi_loader.specs.Start.{Started};
    ghost use Rattle.cfi_loader.specs.inner.Opening.{started_of, IsReadyStart};

    ghost Value = { Started };

    ghost view = { started_of };

    ghost invariant = { IsReadyStart };
}

impl Start {
    /// Places and verifies the start modules in plan order, each against those before it, and finds where the guests
    /// begin. It takes all the memory that an opened loader has.
    ///
    /// `modules` are those of the plan, one a line. Faults of modules come before guests that have no entry; for a
    /// bare file's plan the entry is the module's one function.
    pub fn new(alloc: Global, plan: &Plan, modules: Items<Module>) -> Result<Start, StartFault>
        requires { CanStart plan.now modules }
        ensures ok { IfOk result (IsStarted plan.now modules) }
        ensures fault { IfErr result (IsStartFault plan.now modules) }
    {
        let books = Books::open(alloc, plan, modules)?;
        let blank = Blank::new(
            alloc,
            books.layout,
            plan.versions,
            plan.first,
            books.book.image(),
        )?;
        let pad = Pad::new(alloc)?;
        Ok(Start { blank, pad, books })
    }
}
