//! The books of a live run: what is known of a module before it is tried, what was found of it, and the load in force.

ghost use Rattle.std.specs.Prelude.{◌≡◌, ◌+◌, ◌<◌, true, if◌then◌else◌, IfOk, IfErr, IfSome, OnOk, OnErr, Some, length, slice_get, slice_index_or, slice_set};
ghost use Rattle.cfi_plan.specs.declared.journal.JournalLine.TheVariants.{LoadOk, RetireOk};
ghost use Rattle.cfi_plan.specs.declared.journal.Who.TheVariants.{Script};
ghost use Rattle.cfi_aux.specs.declared.placed.Placed.{Placed as PlacedModule};
ghost use Rattle.cfi_ledger.specs.Books.{committed, with_journal, with_roster};
ghost use Rattle.cfi_ledger.specs.Plans.{CanStart};
ghost use Rattle.cfi_ledger.specs.Journal.{asked_by};
ghost use Rattle.cfi_ledger.specs.Finding.{AreFindings, DoesJoin};
ghost use Rattle.cfi_ledger.specs.Journal.{HasLine, HasRoomFor};
ghost use Rattle.cfi_ledger.specs.Loads.{HasPrepared, IsKnown, IsUnprepared};
ghost use Rattle.cfi_ledger.specs.Opens.{IsFirstGlobal};
ghost use Rattle.cfi_ledger.specs.Roster.{live_placed, HasRetired, IsBookOfRoster, IsFilled};
ghost use Rattle.cfi_policy.specs.Book.{KeepsNumbers};
ghost use Rattle.cfi_word.specs.declared.limits.TheConstants.{MAX_EPOCH, MAX_POLICY};

use crate::candidate::Candidate;
use crate::departure::Departure;
use crate::finding::{Finding, Known, Outcome, fault_by, outcome_of};
use crate::force::Force;
use crate::roster::Roster;
use cfi_aux::Module;
use cfi_modules::{JoinFault, first_global, loaded_have_entries};
use cfi_plan::{JournalLine, Plan, Who};
use cfi_policy::Book;
use cfi_values::Items;
use cfi_word::Layout;
use cfi_word::limits::MAX_EPOCH;
use std::alloc::{AllocError, Global};
use std::mem;

/// The plan and its modules, what is in force, with the journal, and what was found of modules that are not loaded.
#[derive(Drop)]
pub struct Books {
    /// The plan.
    pub plan: Plan,
    /// Its modules, one a line.
    pub modules: Items<Module>,
    /// The code words of the plan.
    pub layout: Layout,
    /// What is in force, with the journal.
    pub force: Force,
    /// The image in force, with the links of the loaded modules.
    pub book: Book,
    /// What was found of each module of the plan when it was tried, so that it is not tried twice behind the same ones.
    pub found: Vec<Option<Finding>>,
    /// Whether memory was missing for a load.
    pub starved: bool,
    /// Where their memory comes from.
    pub alloc: Global,
}

impl Books {
    /// Adds a line to the journal, for which there is room. It takes no memory.
    pub fn tell(&mut self, who: Who, what: JournalLine)
        requires room { HasRoomFor who self.old.force.journal }
        ensures line { HasLine (asked_by who what) self.old.force.journal self.new.force.journal }
        ensures same { self.new ≡ with_journal self.new.force.journal self.old }
    {
        self.force.tell(who, what);
    }

    /// The address of the first Global function of the module at a place in load order.
    pub fn address_at(&self, at: usize) -> Option<u32>
        requires { at < length self.now.force.roster.placed }
        ensures { (d : PlacedModule)
            → IsFirstGlobal (slice_index_or self.now.force.roster.placed at d) result }
    {
        loaded_have_entries();
        first_global(&self.force.roster.modules()[at])
    }

    // Takes room for a line beside those of the script. Whether there is memory for it.
    fn reserve_one(&mut self) -> bool
        ensures lines { self.new.force.journal.lines ≡ self.old.force.journal.lines }
        ensures left { self.new.force.journal.left ≡ self.old.force.journal.left }
        ensures room { result ≡ true → 0 < self.new.force.journal.spare }
        ensures same { self.new ≡ record (with_journal self.new.force.journal self.old) {
          starved = if result then self.old.starved else true;
        } }
    {
        if self.force.journal.reserve().is_ok() {
            return true;
        }
        self.starved = true;
        false
    }

    /// Takes room for the line of whoever asks; that of the script has room. Whether there is memory for it.
    pub fn reserve(&mut self, who: Who) -> bool
        requires { who ≡ Script → 0 < length self.old.force.journal.left }
        ensures lines { self.new.force.journal.lines ≡ self.old.force.journal.lines }
        ensures left { self.new.force.journal.left ≡ self.old.force.journal.left }
        ensures room { result ≡ true → HasRoomFor who self.new.force.journal }
        ensures same { self.new ≡ record (with_journal self.new.force.journal self.old) {
          starved = if result then self.old.starved else true;
        } }
    {
        match who {
            Who::Script => true,
            Who::Guest(_) => self.reserve_one(),
        }
    }

    /// Places and verifies a module of the plan behind those that are loaded, and takes all memory of its load.
    ///
    /// Where it joins, the loaded modules are lent to it until it is committed or turned down.
    pub fn prepare(&mut self, number: u32) -> Result<Candidate, JoinFault>
        requires can { CanStart self.old.plan self.old.modules }
        requires known { number < length self.old.plan.modules }
        requires few { self.old.force.policy < MAX_POLICY }
        requires book { IsBookOfRoster self.old.force.roster self.old.book }
        ensures ok { IfOk result (λ candidate. HasPrepared self.old number candidate.roster) }
        ensures before { IfOk result (λ candidate. candidate.before ≡ self.old.force.roster) }
        ensures book { IfOk result (λ candidate. IsBookOfRoster candidate.roster candidate.book) }
        ensures kept { IfOk result (λ candidate.
            KeepsNumbers (live_placed candidate.roster) self.old.book.image candidate.book.image) }
        ensures cells { IfOk result (λ candidate. IsFilled candidate.roster) }
        ensures lent { OnOk result (self.new ≡ with_roster self.new.force.roster self.old) }
        ensures fault { IfErr result (IsUnprepared self.old number) }
        ensures same { OnErr result (self.new ≡ self.old) }
    {
        let empty = Roster::new(self.alloc, &self.layout);
        let roster = mem::replace(&mut self.force.roster, empty);
        let entrant = self.force.entrant(&self.plan, number);
        let unplaced = &self.modules.as_slice()[number as usize];
        match roster.prepare(&entrant, unplaced, &self.book) {
            Ok(candidate) => Ok(candidate),
            Err(unjoined) => {
                self.force.roster = unjoined.roster;
                Err(unjoined.fault)
            }
        }
    }

    /// Whether a module of the plan joins those that are loaded. No image is made.
    pub fn joins(&mut self, number: u32) -> Result<(), JoinFault>
        requires can { CanStart self.old.plan self.old.modules }
        requires known { number < length self.old.plan.modules }
        ensures ok { OnOk result (DoesJoin self.old.modules self.old.force.roster number) }
        ensures fault { IfErr result (IsUnprepared self.old number) }
        ensures same { self.new ≡ self.old }
    {
        self.force
            .roster
            .joins(&self.modules.as_slice()[number as usize])
    }

    // What was found of a module under the policy in force.
    fn outcome(&self, number: u32) -> Option<Outcome>
        requires { number < length self.now.found.items }
        ensures { IfSome result (λ outcome. slice_get self.now.found.items number
            ≡ Some (Some (record { policy = self.now.force.policy; outcome = outcome }))) }
    {
        match self.found[number as usize] {
            Some(finding) => {
                if finding.policy == self.force.policy {
                    Some(finding.outcome)
                } else {
                    None
                }
            }
            None => None,
        }
    }

    /// What is known of a module of the plan without trying it.
    ///
    /// The name of a fault takes memory, and want of that is a fault.
    pub fn known(&self, number: u32) -> Known
        requires known { number < length self.now.modules }
        requires found { AreFindings self.now.modules self.now.force.policy self.now.force.roster
            self.now.found.items }
        ensures { IsKnown self.now number result }
    {
        let Some(outcome) = self.outcome(number) else {
            return Known::Nothing;
        };
        let unplaced = &self.modules.as_slice()[number as usize];
        let Ok(fault) = fault_by(self.alloc, unplaced, outcome) else {
            return Known::Unjoined(JoinFault::Memory);
        };
        if let Some(fault) = fault {
            return Known::Unjoined(fault);
        }
        if self.force.epoch == MAX_EPOCH {
            return Known::Spent;
        }
        Known::Nothing
    }

    // Notes what was found of a module under the policy in force.
    fn note(&mut self, number: u32, outcome: Outcome)
        requires { number < length self.old.found.items }
        ensures found { self.new.found.items ≡ slice_set self.old.found.items number
            (Some (record { policy = self.old.force.policy; outcome = outcome })) }
        ensures same { self.new ≡ record self.old { found = self.new.found } }
    {
        let policy = self.force.policy;
        self.found[number as usize] = Some(Finding { policy, outcome });
    }

    /// Keeps why a module does not join. It takes no memory.
    pub fn keep(&mut self, number: u32, fault: &JoinFault)
        requires found { AreFindings self.old.modules self.old.force.policy self.old.force.roster
            self.old.found.items }
        requires unprepared { IsUnprepared self.old number fault.now }
        ensures found { AreFindings self.old.modules self.old.force.policy self.old.force.roster
            self.new.found.items }
        ensures same { self.new ≡ record self.old { found = self.new.found } }
    {
        let unplaced = &self.modules.as_slice()[number as usize];
        if let Some(outcome) = outcome_of(unplaced, fault) {
            self.note(number, outcome);
        }
    }

    /// Keeps that a module joins. It takes no memory.
    pub fn keep_joining(&mut self, number: u32)
        requires found { AreFindings self.old.modules self.old.force.policy self.old.force.roster
            self.old.found.items }
        requires joins { DoesJoin self.old.modules self.old.force.roster number }
        ensures found { AreFindings self.old.modules self.old.force.policy self.old.force.roster
            self.new.found.items }
        ensures same { self.new ≡ record self.old { found = self.new.found } }
    {
        self.note(number, Outcome::Joins);
    }

    /// Puts a module in force, with its line. It takes no memory.
    pub fn commit(&mut self, candidate: Candidate, who: Who, number: u32)
        requires room { HasRoomFor who self.old.force.journal }
        requires left { self.old.force.epoch < MAX_EPOCH }
        requires few { self.old.force.policy < MAX_POLICY }
        ensures line { HasLine
            (asked_by who (LoadOk number (self.old.force.epoch + 1) (self.old.force.policy + 1)))
            self.old.force.journal self.new.force.journal }
        ensures same { self.new
            ≡ committed candidate.roster candidate.book self.new.force.journal self.old }
    {
        let (roster, book) = candidate.commit();
        self.book = book;
        self.force.roster = roster;
        self.force.put_load(who, number);
    }

    /// Takes all memory of retiring the live module at a place in load order, with the next policy.
    ///
    /// The loaded modules are lent to it until it is committed or turned down.
    pub fn depart(&mut self, place: usize) -> Result<Departure, AllocError>
        requires within { place < length self.old.force.roster.placed }
        requires few { self.old.force.policy < MAX_POLICY }
        requires book { IsBookOfRoster self.old.force.roster self.old.book }
        ensures ok { IfOk result (λ departure. HasRetired place
            (self.old.force.policy + 1) self.old.force.roster departure.roster) }
        ensures before { IfOk result (λ departure. departure.before ≡ self.old.force.roster) }
        ensures book { IfOk result (λ departure. IsBookOfRoster departure.roster departure.book) }
        ensures cells { IfOk result (λ departure. IsFilled departure.roster) }
        ensures lent { OnOk result (self.new ≡ with_roster self.new.force.roster self.old) }
        ensures same { OnErr result (self.new ≡ self.old) }
    {
        let empty = Roster::new(self.alloc, &self.layout);
        let roster = mem::replace(&mut self.force.roster, empty);
        match roster.depart(place, self.force.policy + 1, &self.book) {
            Ok(departure) => Ok(departure),
            Err(roster) => {
                self.force.roster = roster;
                Err(AllocError)
            }
        }
    }

    /// Puts a retirement in force, with its line. It takes no memory.
    pub fn commit_departure(&mut self, departure: Departure, who: Who, number: u32)
        requires room { HasRoomFor who self.old.force.journal }
        requires left { self.old.force.epoch < MAX_EPOCH }
        requires few { self.old.force.policy < MAX_POLICY }
        ensures line { HasLine
            (asked_by who (RetireOk number (self.old.force.epoch + 1) (self.old.force.policy + 1)))
            self.old.force.journal self.new.force.journal }
        ensures same { self.new
            ≡ committed departure.roster departure.book self.new.force.journal self.old }
    {
        let (roster, book) = departure.commit();
        self.book = book;
        self.force.roster = roster;
        self.force.put_retirement(who, number);
    }
}
