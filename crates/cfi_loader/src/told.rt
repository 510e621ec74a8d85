//! What the journal is told of a load that puts nothing in force.

ghost use Rattle.std.specs.Prelude.{◌≡◌, true};
ghost use Rattle.cfi_ledger.specs.Books.{with_journal, with_roster};
ghost use Rattle.cfi_ledger.specs.Finding.{AreFindings};
ghost use Rattle.cfi_ledger.specs.Journal.{HasLine, HasRoomFor, asked_by};
ghost use Rattle.cfi_ledger.specs.Loads.{IsAbsent, IsFlagged, IsListed, IsSpent, IsUnprepared};
ghost use Rattle.cfi_loader.specs.Told.{MayAskFor};
ghost use Rattle.cfi_loader.specs.inner.Books.{BooksAgree, ledger_of};
ghost use Rattle.cfi_loader.specs.inner.Loads.{IsSamePlan, LoadsTo, Refuses, load_fault_by, update_line};
ghost use Rattle.cfi_tables.specs.Keeping.{Keeping};
ghost use Rattle.cfi_tables.specs.Key.{Key};
ghost use Rattle.cfi_valid.specs.Script.{Load};

use crate::fault::LoadFault;
use crate::loaded::Loaded;
use crate::telling::{load_fault_by, load_fault_of, update_line};
use cfi_ledger::{Books, Candidate, join_line};
use cfi_modules::JoinFault;
use cfi_plan::{JournalLine, Who};
use cfi_tables::UpdateFault;

/// The answer where the module is live, at this place in load order.
pub(crate) fn again(books: &mut Books, who: Who, number: u32, at: usize) -> Loaded
    requires room { HasRoomFor who books.old.force.journal }
    requires listed { IsListed books.old.force.roster number at }
    requires live { IsFlagged books.old.force.roster at true }
    ensures after { (k : Key) (keeping : Keeping) → BooksAgree k books.old keeping →
        MayAskFor (ledger_of books.old keeping) who (Load number) →
        LoadsTo k who number result books.old books.new keeping keeping }
    ensures same { IsSamePlan books.old books.new }
    ensures again { result.again ≡ true }
{
    let policy = books.force.policy;
    books.tell(
        who,
        JournalLine::LoadAgain {
            module: number,
            policy,
        },
    );
    Loaded {
        again: true,
        epoch: books.force.epoch,
        policy,
        address: books.address_at(at),
    }
}

/// Tells why the module does not join.
pub(crate) fn refuse(books: &mut Books, who: Who, number: u32, fault: JoinFault) -> LoadFault
    requires room { HasRoomFor who books.old.force.journal }
    requires unprepared { IsUnprepared books.old number fault }
    ensures after { (k : Key) (keeping : Keeping) → BooksAgree k books.old keeping →
        MayAskFor (ledger_of books.old keeping) who (Load number) → IsAbsent books.old number →
        Refuses k who number result books.old books.new keeping keeping }
    ensures same { IsSamePlan books.old books.new }
{
    match join_line(number, &fault) {
        Some(line) => books.tell(who, line),
        None => books.starved = true,
    }
    load_fault_of(fault)
}

/// Tells why the module is not put in force, and takes it back.
pub(crate) fn turn_down(
    books: &mut Books,
    candidate: Candidate,
    who: Who,
    number: u32,
    fault: UpdateFault,
) -> LoadFault
    requires room { HasRoomFor who books.old.force.journal }
    ensures line { HasLine (asked_by who (update_line number fault))
        books.old.force.journal books.new.force.journal }
    ensures same { books.new
        ≡ with_roster candidate.before (with_journal books.new.force.journal books.old) }
    ensures fault { result ≡ load_fault_by fault }
{
    books.force.roster = candidate.discard();
    books.tell(who, update_line(number, fault));
    load_fault_by(fault)
}

/// Tells that no epoch is left for a module that joins.
pub(crate) fn refuse_spent(books: &mut Books, who: Who, number: u32) -> LoadFault
    requires room { HasRoomFor who books.old.force.journal }
    requires spent { IsSpent books.old number }
    ensures after { (k : Key) (keeping : Keeping) → BooksAgree k books.old keeping →
        MayAskFor (ledger_of books.old keeping) who (Load number) → IsAbsent books.old number →
        Refuses k who number result books.old books.new keeping keeping }
    ensures same { IsSamePlan books.old books.new }
{
    books.tell(who, JournalLine::LoadEpochs { module: number });
    LoadFault::EpochsSpent
}

/// Tells why the module does not join, and keeps it.
pub(crate) fn refuse_unjoined(
    books: &mut Books,
    who: Who,
    number: u32,
    fault: JoinFault,
) -> LoadFault
    requires room { HasRoomFor who books.old.force.journal }
    requires found { AreFindings books.old.modules books.old.force.policy books.old.force.roster
        books.old.found.items }
    requires unprepared { IsUnprepared books.old number fault }
    ensures after { (k : Key) (keeping : Keeping) → BooksAgree k books.old keeping →
        MayAskFor (ledger_of books.old keeping) who (Load number) → IsAbsent books.old number →
        Refuses k who number result books.old books.new keeping keeping }
    ensures same { IsSamePlan books.old books.new }
{
    books.keep(number, &fault);
    refuse(books, who, number, fault)
}
