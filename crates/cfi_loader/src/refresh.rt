//! Refreshes.

ghost use Rattle.std.specs.Prelude.{◌≡◌, IfOk, IfErr, OnOk};
ghost use Rattle.cfi_plan.specs.declared.journal.JournalLine.TheVariants.{RefreshOk};
ghost use Rattle.cfi_plan.specs.declared.journal.Who.TheVariants.{Script};
ghost use Rattle.cfi_tables.specs.Faults.{AllAdmit};
ghost use Rattle.cfi_valid.specs.Script.{Refresh};
ghost use Rattle.cfi_ledger.specs.Journal.{asked_by};
ghost use Rattle.cfi_loader.specs.Results.{refused_refresh};
ghost use Rattle.cfi_loader.specs.Told.{HasTold, MayAskFor};
ghost use Rattle.cfi_loader.specs.inner.Books.{IsAfter, BooksAgree, ledger_of};

use crate::loader::{Loader, LoaderName};
use crate::mark::REFRESH_MARK;
use cfi_ledger::Books;
use cfi_plan::{JournalLine, Who};
use cfi_tables::{Keeper, TableName, Tables, UpdateFault};

// The line of a refresh that was refused.
fn refused_refresh(fault: UpdateFault) -> JournalLine
    ensures { result ≡ refused_refresh fault }
{
    match fault {
        UpdateFault::EpochsSpent => JournalLine::RefreshEpochs,
        UpdateFault::VersionsSpent { guest, quiet } => JournalLine::RefreshVersions {
            guest,
            quiet,
        },
    }
}

// Asks the keeper for a refresh, and tells the journal what came of it.
fn refresh<N: TableName>(
    keeper: &mut Keeper<N>,
    books: &mut Books,
    tables: &Tables<N>,
) -> Result<u32, UpdateFault>
    requires kept { BooksAgree N.key books.old keeper.old }
    requires due { MayAskFor (ledger_of books.old keeper.old) Script Refresh }
    ensures ok { IfOk result (λ epoch.
        IsAfter N.key (asked_by Script (RefreshOk epoch)) books.old books.new
        keeper.old keeper.new) }
    ensures admitted { OnOk result (AllAdmit N.key keeper.old keeper.new.quiets) }
    ensures fault { IfErr result (λ fault.
        IsAfter N.key (asked_by Script (refused_refresh fault)) books.old books.new
        keeper.old keeper.new) }
    ensures same { (books.new.plan ≡ books.old.plan) × (books.new.modules ≡ books.old.modules) }
{
    match keeper.update(tables, books.book.image(), books.force.policy, REFRESH_MARK) {
        Ok(_) => {
            books.force.put_refresh(Who::Script);
            Ok(books.force.epoch)
        }
        Err(fault) => {
            books.tell(Who::Script, refused_refresh(fault));
            Err(fault)
        }
    }
}

impl<N: LoaderName> Loader<N> {
    /// Makes a new epoch with the policy in force, which each guest's QUIET word has admitted, and answers it. Each
    /// call adds one line to the journal. It takes no memory.
    ///
    /// The script asks, whose next call is this one. `EpochsSpent` comes where the epoch is `MAX_EPOCH`, then
    /// `VersionsSpent` where a guest has published an epoch that is too far behind; neither stores anything.
    pub fn refresh(&mut self, tables: &Tables<N>) -> Result<u32, UpdateFault>
        requires { MayAskFor self.old Script Refresh }
        ensures ok { IfOk result (λ epoch.
            HasTold N.key (asked_by Script (RefreshOk epoch)) self.old self.new) }
        ensures admitted { OnOk result (AllAdmit N.key self.old.keeping self.new.keeping.quiets) }
        ensures fault { IfErr result (λ fault.
            HasTold N.key (asked_by Script (refused_refresh fault)) self.old self.new) }
    {
        refresh(&mut self.keeper, &mut self.books, tables)
    }
}
