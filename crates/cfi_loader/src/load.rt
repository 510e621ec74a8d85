//! Loads.

ghost use Rattle.std.specs.Prelude.{◌≡◌, ◌+◌, ◌-◌, ◌<◌, false, IfOk, IfErr, OnOk, length, slice_index_or};
ghost use Rattle.cfi_aux.specs.declared.placed.Placed.{Placed};
ghost use Rattle.cfi_plan.specs.declared.journal.JournalLine.TheVariants.{LoadOk};
ghost use Rattle.cfi_plan.specs.declared.journal.Who.TheVariants.{Guest, Script};
ghost use Rattle.cfi_slips.specs.Stubs.{with_lines};
ghost use Rattle.cfi_tables.specs.Faults.{AllAdmit};
ghost use Rattle.cfi_tables.specs.Keeping.{Keeping};
ghost use Rattle.cfi_tables.specs.Key.{Key};
ghost use Rattle.cfi_valid.specs.Script.{Load};
ghost use Rattle.cfi_ledger.specs.Journal.{asked_by};
ghost use Rattle.cfi_loader.specs.Results.{HasLoaded, IsLoadFault, KeepsClasses, told_lines};
ghost use Rattle.cfi_loader.specs.Told.{MayAskFor};
ghost use Rattle.cfi_loader.specs.inner.Books.{BooksAgree, ledger_of};
ghost use Rattle.cfi_ledger.specs.Journal.{HasLine, HasRoomFor};
ghost use Rattle.cfi_ledger.specs.Books.{committed};
ghost use Rattle.cfi_ledger.specs.Finding.{AreFindings};
ghost use Rattle.cfi_ledger.specs.Loads.{IsAbsent};
ghost use Rattle.cfi_ledger.specs.Opens.{IsFirstGlobal};
ghost use Rattle.cfi_ledger.specs.Plans.{CanStart};
ghost use Rattle.cfi_word.specs.declared.limits.TheConstants.{MAX_EPOCH, MAX_POLICY};
ghost use Rattle.cfi_loader.specs.inner.Loads.{IsSamePlan, LoadsTo, Refuses};

use crate::fault::LoadFault;
use crate::loaded::Loaded;
use crate::loader::{Loader, LoaderName};
use crate::mark::load_mark;
use crate::told::{again, refuse, refuse_spent, refuse_unjoined, turn_down};
use cfi_ledger::{Books, Candidate, Known, Prospect};
use cfi_plan::{JournalLine, Who};
use cfi_slips::Slip;
use cfi_tables::{Keeper, TableName, Tables};
use cfi_word::limits::MAX_EPOCH;

// Puts the module in force, with its line, and answers.
fn commit(books: &mut Books, candidate: Candidate, who: Who, number: u32) -> Loaded
    requires room { HasRoomFor who books.old.force.journal }
    requires left { books.old.force.epoch < MAX_EPOCH }
    requires few { books.old.force.policy < MAX_POLICY }
    requires some { 0 < length candidate.roster.placed }
    ensures line { HasLine
        (asked_by who (LoadOk number (books.old.force.epoch + 1) (books.old.force.policy + 1)))
        books.old.force.journal books.new.force.journal }
    ensures same { books.new
        ≡ committed candidate.roster candidate.book books.new.force.journal books.old }
    ensures again { result.again ≡ false }
    ensures epoch { result.epoch ≡ books.new.force.epoch }
    ensures policy { result.policy ≡ books.new.force.policy }
    ensures address { (d : Placed) → IsFirstGlobal
        (slice_index_or candidate.roster.placed (length candidate.roster.placed - 1) d)
        result.address }
{
    books.commit(candidate, who, number);
    let last = books.force.roster.modules().len() - 1;
    Loaded {
        again: false,
        epoch: books.force.epoch,
        policy: books.force.policy,
        address: books.address_at(last),
    }
}

// Refuses a module where no epoch is left: whether it joins is found without an image, and kept.
fn refuse_last(books: &mut Books, who: Who, number: u32) -> LoadFault
    requires can { CanStart books.old.plan books.old.modules }
    requires known { number < length books.old.plan.modules }
    requires room { HasRoomFor who books.old.force.journal }
    requires found { AreFindings books.old.modules books.old.force.policy books.old.force.roster
        books.old.found.items }
    requires last { books.old.force.epoch ≡ MAX_EPOCH }
    ensures after { (k : Key) (keeping : Keeping) → BooksAgree k books.old keeping →
        MayAskFor (ledger_of books.old keeping) who (Load number) → IsAbsent books.old number →
        Refuses k who number result books.old books.new keeping keeping }
    ensures same { IsSamePlan books.old books.new }
{
    if let Err(fault) = books.joins(number) {
        return refuse_unjoined(books, who, number, fault);
    }
    books.keep_joining(number);
    refuse_spent(books, who, number)
}

// Tries to load a module that is not loaded, where there is room for its line, and keeps why it is refused.
fn attempt<N: TableName>(
    keeper: &mut Keeper<N>,
    books: &mut Books,
    tables: &Tables<N>,
    number: u32,
    who: Who,
) -> Result<Loaded, LoadFault>
    requires known { number < length books.old.plan.modules }
    requires kept { BooksAgree N.key books.old keeper.old }
    requires asks { MayAskFor (ledger_of books.old keeper.old) who (Load number) }
    requires room { HasRoomFor who books.old.force.journal }
    requires absent { IsAbsent books.old number }
    ensures ok { IfOk result (λ loaded.
        LoadsTo N.key who number loaded books.old books.new keeper.old keeper.new) }
    ensures kept { OnOk result
        (KeepsClasses (ledger_of books.old keeper.old) (ledger_of books.new keeper.new)) }
    ensures admitted { OnOk result (AllAdmit N.key keeper.old keeper.new.quiets) }
    ensures fault { IfErr result (λ fault.
        Refuses N.key who number fault books.old books.new keeper.old keeper.new) }
    ensures same { IsSamePlan books.old books.new }
{
    let candidate = match books.prepare(number) {
        Ok(candidate) => candidate,
        Err(fault) => return Err(refuse_unjoined(books, who, number, fault)),
    };
    let mark = load_mark(who, number);
    match keeper.update(tables, candidate.image(), books.force.policy + 1, mark) {
        Ok(_) => Ok(commit(books, candidate, who, number)),
        Err(fault) => {
            let fault = turn_down(books, candidate, who, number, fault);
            books.keep_joining(number);
            Err(fault)
        }
    }
}

// Loads a module that is not loaded, where there is room for its line. One that is known to be refused is not tried.
fn add<N: TableName>(
    keeper: &mut Keeper<N>,
    books: &mut Books,
    tables: &Tables<N>,
    number: u32,
    who: Who,
) -> Result<Loaded, LoadFault>
    requires known { number < length books.old.plan.modules }
    requires kept { BooksAgree N.key books.old keeper.old }
    requires asks { MayAskFor (ledger_of books.old keeper.old) who (Load number) }
    requires room { HasRoomFor who books.old.force.journal }
    requires absent { IsAbsent books.old number }
    ensures ok { IfOk result (λ loaded.
        LoadsTo N.key who number loaded books.old books.new keeper.old keeper.new) }
    ensures kept { OnOk result
        (KeepsClasses (ledger_of books.old keeper.old) (ledger_of books.new keeper.new)) }
    ensures admitted { OnOk result (AllAdmit N.key keeper.old keeper.new.quiets) }
    ensures fault { IfErr result (λ fault.
        Refuses N.key who number fault books.old books.new keeper.old keeper.new) }
    ensures same { IsSamePlan books.old books.new }
{
    match books.known(number) {
        Known::Nothing if books.force.epoch == MAX_EPOCH => Err(refuse_last(books, who, number)),
        Known::Nothing => attempt(keeper, books, tables, number, who),
        Known::Unjoined(fault) => Err(refuse(books, who, number, fault)),
        Known::Spent => Err(refuse_spent(books, who, number)),
    }
}

// Loads a module, and tells the journal what came of it.
fn load<N: TableName>(
    keeper: &mut Keeper<N>,
    books: &mut Books,
    tables: &Tables<N>,
    number: u32,
    who: Who,
) -> Result<Loaded, LoadFault>
    requires known { number < length books.old.plan.modules }
    requires kept { BooksAgree N.key books.old keeper.old }
    requires asks { MayAskFor (ledger_of books.old keeper.old) who (Load number) }
    ensures ok { IfOk result (λ loaded.
        LoadsTo N.key who number loaded books.old books.new keeper.old keeper.new) }
    ensures kept { IfOk result (λ loaded. loaded.again ≡ false
        → KeepsClasses (ledger_of books.old keeper.old) (ledger_of books.new keeper.new)) }
    ensures admitted { IfOk result (λ loaded. loaded.again ≡ false
        → AllAdmit N.key keeper.old keeper.new.quiets) }
    ensures fault { IfErr result (λ fault.
        Refuses N.key who number fault books.old books.new keeper.old keeper.new) }
    ensures same { IsSamePlan books.old books.new }
{
    if !books.reserve(who) {
        return Err(LoadFault::Memory);
    }
    match books.force.roster.prospect(number) {
        Prospect::Retired(_) => {
            books.tell(who, JournalLine::LoadRetired { module: number });
            Err(LoadFault::Retired)
        }
        Prospect::Again(at) => Ok(again(books, who, number, at)),
        Prospect::Full => {
            books.tell(who, JournalLine::LoadFull { module: number });
            Err(LoadFault::ModulesFull)
        }
        Prospect::Open => add(keeper, books, tables, number, who),
    }
}

impl<N: LoaderName> Loader<N> {
    /// Loads the module of this number of the plan: places it behind those that are loaded and verifies it against the
    /// live ones, makes the image of these, in which classes keep their numbers, and the cells of all, and puts it in
    /// force with the next policy, which each guest's QUIET word has admitted. A module that is live answers at once.
    ///
    /// Each answer but `Memory` adds one line to the journal. A refusal leaves the tables, the code and the modules as
    /// they were; all memory is taken before the first word is stored, and want of it marks the loader starved. The
    /// faults come in the order of `LoadFault`. The script asks, whose next call is this one.
    pub fn load(&mut self, tables: &Tables<N>, number: u32) -> Result<Loaded, LoadFault>
        requires known { number < length N.plan.modules }
        requires due { MayAskFor self.old Script (Load number) }
        ensures ok { IfOk result (λ loaded.
            HasLoaded N.key Script number loaded self.old self.new) }
        ensures kept { IfOk result (λ loaded. loaded.again ≡ false
            → KeepsClasses self.old self.new) }
        ensures admitted { IfOk result (λ loaded. loaded.again ≡ false
            → AllAdmit N.key self.old.keeping self.new.keeping.quiets) }
        ensures fault { IfErr result (λ fault.
            IsLoadFault N.key Script number fault self.old self.new) }
    {
        let who = Who::Script;
        load(&mut self.keeper, &mut self.books, tables, number, who)
    }

    /// Loads the module in the name of the slip's guest, as `load` does, and tells its line on the slip. Want of memory
    /// tells no line.
    pub fn load_for(
        &mut self,
        tables: &Tables<N>,
        number: u32,
        slip: &mut Slip<N>,
    ) -> Result<Loaded, LoadFault>
        requires known { number < length N.plan.modules }
        requires asks { MayAskFor self.old (Guest slip.old.guest) (Load number) }
        ensures ok { IfOk result (λ loaded.
            HasLoaded N.key (Guest slip.old.guest) number loaded self.old self.new) }
        ensures kept { IfOk result (λ loaded. loaded.again ≡ false
            → KeepsClasses self.old self.new) }
        ensures admitted { IfOk result (λ loaded. loaded.again ≡ false
            → AllAdmit N.key self.old.keeping self.new.keeping.quiets) }
        ensures fault { IfErr result (λ fault.
            IsLoadFault N.key (Guest slip.old.guest) number fault self.old self.new) }
        ensures told { slip.new ≡ with_lines (told_lines number result) slip.old }
    {
        let before = self.books.force.journal.lines().len();
        let who = Who::Guest(slip.guest());
        let answer = load(&mut self.keeper, &mut self.books, tables, number, who);
        let told = &self.books.force.journal.lines()[before..];
        self.stubs.tell(slip, told);
        answer
    }
}
