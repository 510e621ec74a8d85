//! Retirements.

ghost use Rattle.std.specs.Prelude.{◌≡◌, ◌<◌, true, IfErr, IfOk, OnOk, length};
ghost use Rattle.cfi_ledger.specs.Loads.{IsFlagged, IsListed};
ghost use Rattle.cfi_ledger.specs.Books.{end_of_books, with_journal};
ghost use Rattle.cfi_ledger.specs.Journal.{asked_by, HasLine, HasRoomFor};
ghost use Rattle.cfi_loader.specs.Retirements.{HasRetired, IsRetireFault};
ghost use Rattle.cfi_loader.specs.Told.{MayAskFor};
ghost use Rattle.cfi_loader.specs.inner.Books.{BooksAgree, ledger_of};
ghost use Rattle.cfi_loader.specs.inner.Loads.{IsSamePlan};
ghost use Rattle.cfi_loader.specs.inner.Retirements.{refused_retirement, retire_fault_by, RefusesRetirement, RetiresTo};
ghost use Rattle.cfi_plan.specs.declared.journal.Who.TheVariants.{Script};
ghost use Rattle.cfi_tables.specs.Faults.{AllAdmit};
ghost use Rattle.cfi_word.specs.declared.limits.TheConstants.{MAX_EPOCH};
ghost use Rattle.cfi_valid.specs.Journal.{IsUnused};
ghost use Rattle.cfi_valid.specs.Script.{Retire};

use crate::loader::{Loader, LoaderName};
use crate::mark::retirement_mark;
use cfi_ledger::{Books, Prospect};
use cfi_plan::{JournalLine, Who};
use cfi_tables::{Keeper, TableName, Tables, UpdateFault};
use cfi_word::limits::MAX_EPOCH;
use std::alloc::AllocError;
use thiserror::Error;

/// The epoch and the policy that a retirement put in force.
#[derive(Clone, Copy, Debug, PartialEq, Eq)]
pub struct Retired {
    /// The epoch.
    pub epoch: u32,
    /// The policy.
    pub policy: u32,
}

/// Why a module is not retired: the first cause, in this order.
#[derive(Clone, Copy, Debug, PartialEq, Eq, Error)]
pub enum RetireFault {
    /// It is not loaded, or was retired before.
    #[error("the module is not live")]
    NotLive,
    /// The live module of this number is the first that jumps into it.
    #[error("module {0} jumps into it")]
    InUse(u32),
    /// The epoch in force is `MAX_EPOCH`.
    #[error("no epoch is left")]
    EpochsSpent,
    /// The QUIET word of a guest tells an epoch that is too far behind.
    #[error("guest {guest} has published epoch {quiet}, and no version is left")]
    VersionsSpent {
        /// The guest.
        guest: u32,
        /// The epoch that it has published.
        quiet: u32,
    },
    /// There is no memory for it.
    #[error("out of memory")]
    Memory,
}

// The fault of an update as one of a retirement.
fn retire_fault_by(fault: UpdateFault) -> RetireFault
    ensures { result ≡ retire_fault_by fault }
{
    match fault {
        UpdateFault::EpochsSpent => RetireFault::EpochsSpent,
        UpdateFault::VersionsSpent { guest, quiet } => RetireFault::VersionsSpent { guest, quiet },
    }
}

// The line of a retirement whose update was refused.
fn refused_retirement(number: u32, fault: UpdateFault) -> JournalLine
    ensures { result ≡ refused_retirement number fault }
{
    match fault {
        UpdateFault::EpochsSpent => JournalLine::RetireEpochs { module: number },
        UpdateFault::VersionsSpent { guest, quiet } => JournalLine::RetireVersions {
            module: number,
            guest,
            quiet,
        },
    }
}

// Retires the live module at a place, into which no live one jumps; an epoch is left.
fn withdraw<N: TableName>(
    keeper: &mut Keeper<N>,
    books: &mut Books,
    tables: &Tables<N>,
    number: u32,
    place: usize,
) -> Result<Retired, RetireFault>
    requires known { number < length books.old.plan.modules }
    requires kept { BooksAgree N.key books.old keeper.old }
    requires due { MayAskFor (ledger_of books.old keeper.old) Script (Retire number) }
    requires listed { IsListed books.old.force.roster number place }
    requires live { IsFlagged books.old.force.roster place true }
    requires unused { IsUnused (end_of_books books.old) number }
    requires left { books.old.force.epoch < MAX_EPOCH }
    ensures ok { IfOk result (λ retired.
        RetiresTo N.key number retired books.old books.new keeper.old keeper.new) }
    ensures admitted { OnOk result (AllAdmit N.key keeper.old keeper.new.quiets) }
    ensures fault { IfErr result (λ fault.
        RefusesRetirement N.key number fault books.old books.new keeper.old keeper.new) }
    ensures same { IsSamePlan books.old books.new }
{
    let departure = match books.depart(place) {
        Ok(departure) => departure,
        Err(AllocError) => {
            books.starved = true;
            return Err(RetireFault::Memory);
        }
    };
    let mark = retirement_mark(number);
    match keeper.update(tables, departure.image(), books.force.policy + 1, mark) {
        Ok(_) => {
            books.commit_departure(departure, Who::Script, number);
            Ok(Retired {
                epoch: books.force.epoch,
                policy: books.force.policy,
            })
        }
        Err(fault) => {
            books.force.roster = departure.discard();
            books.tell(Who::Script, refused_retirement(number, fault));
            Err(retire_fault_by(fault))
        }
    }
}

// Tells why a module is not retired.
fn refuse(books: &mut Books, fault: RetireFault, line: JournalLine) -> RetireFault
    requires { HasRoomFor Script books.old.force.journal }
    ensures line { HasLine (asked_by Script line)
        books.old.force.journal books.new.force.journal }
    ensures same { books.new ≡ with_journal books.new.force.journal books.old }
    ensures fault { result ≡ fault }
{
    books.tell(Who::Script, line);
    fault
}

// Retires a module, and tells the journal what came of it.
fn retire<N: TableName>(
    keeper: &mut Keeper<N>,
    books: &mut Books,
    tables: &Tables<N>,
    number: u32,
) -> Result<Retired, RetireFault>
    requires known { number < length books.old.plan.modules }
    requires kept { BooksAgree N.key books.old keeper.old }
    requires due { MayAskFor (ledger_of books.old keeper.old) Script (Retire number) }
    ensures ok { IfOk result (λ retired.
        RetiresTo N.key number retired books.old books.new keeper.old keeper.new) }
    ensures admitted { OnOk result (AllAdmit N.key keeper.old keeper.new.quiets) }
    ensures fault { IfErr result (λ fault.
        RefusesRetirement N.key number fault books.old books.new keeper.old keeper.new) }
    ensures same { IsSamePlan books.old books.new }
{
    let Prospect::Again(place) = books.force.roster.prospect(number) else {
        let line = JournalLine::RetireNotLive { module: number };
        return Err(refuse(books, RetireFault::NotLive, line));
    };
    if let Some(user) = books.force.roster.user_of(place) {
        let user = books.force.roster.lines()[user].number;
        let line = JournalLine::RetireInUse {
            module: number,
            user,
        };
        return Err(refuse(books, RetireFault::InUse(user), line));
    }
    if books.force.epoch == MAX_EPOCH {
        let line = JournalLine::RetireEpochs { module: number };
        return Err(refuse(books, RetireFault::EpochsSpent, line));
    }
    withdraw(keeper, books, tables, number, place)
}

impl<N: LoaderName> Loader<N> {
    /// Retires the module of this number of the plan: makes the image of the other live ones, with the code of all, and
    /// the cells of all, and puts it in force with the next policy, which each guest's QUIET word has admitted. Its code,
    /// its data and its place stay; a check in it halts from then on, and so does one that would go into it.
    ///
    /// Each answer but `Memory` adds one line to the journal. A refusal leaves the tables, the code and the modules as
    /// they were; all memory is taken before the first word is stored, and want of it marks the loader starved. The
    /// faults come in the order of `RetireFault`. The script asks, whose next call is this one.
    pub fn retire(&mut self, tables: &Tables<N>, number: u32) -> Result<Retired, RetireFault>
        requires known { number < length N.plan.modules }
        requires due { MayAskFor self.old Script (Retire number) }
        ensures ok { IfOk result (λ retired. HasRetired N.key number retired self.old self.new) }
        ensures admitted { OnOk result (AllAdmit N.key self.old.keeping self.new.keeping.quiets) }
        ensures fault { IfErr result (λ fault.
            IsRetireFault N.key number fault self.old self.new) }
    {
        retire(&mut self.keeper, &mut self.books, tables, number)
    }
}
