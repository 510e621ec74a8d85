//! Entries of a journal, one after the other.

ghost use Rattle.std.specs.Prelude.{◌≡◌, ◌≢◌, ◌↔◌, IfErr, IfOk, IsTrue};
ghost use Rattle.cfi_judge.specs.inner.Lines.{IsEntryFault, IsLineFault, change_of};
ghost use Rattle.cfi_judge.specs.Reached.{state_of};
ghost use Rattle.cfi_judge.specs.inner.Reached.{IsKeptIn, IsReached};
ghost use Rattle.cfi_judge.specs.declared.entries.Change.TheVariants.{Nothing};
ghost use Rattle.cfi_judge.specs.declared.fault.LineFault.TheVariants.{Illegal};
ghost use Rattle.cfi_ledger.specs.Plans.{CanStart};
ghost use Rattle.cfi_plan.specs.declared.journal.JournalLine.TheVariants.{LoadOk, RefreshOk, RetireOk};
ghost use Rattle.cfi_modules.specs.declared.fault.JoinFault.TheVariants.{Memory};
ghost use Rattle.cfi_valid.specs.Journal.{EntryLeads, LineLeads, MayAsk, is_load};

use crate::fault::{LineFault, must};
use crate::leaving::Leaving;
use crate::meeting::is_unloaded;
use crate::reached::Reached;
use cfi_aux::Module;
use cfi_ledger::Entrant;
use cfi_modules::JoinFault;
use cfi_plan::{Entry, JournalLine, Plan, Who};

/// A load or a retirement, as a line tells it.
#[derive(Clone, Copy)]
pub(crate) struct Update {
    /// The module's number.
    pub number: u32,
    /// The epoch that came with it.
    pub epoch: u32,
    /// The policy that came with it.
    pub policy: u32,
}

/// What a line changes.
#[derive(Clone, Copy)]
pub(crate) enum Change {
    /// A module is loaded, in a new epoch.
    Module(Update),
    /// One is retired, in a new epoch.
    Retirement(Update),
    /// There is a new epoch.
    Epoch(u32),
    /// Nothing.
    Nothing,
}

/// What a line changes.
pub(crate) fn change_of(line: JournalLine) -> Change
    ensures { result ≡ change_of line }
{
    match line {
        JournalLine::LoadOk {
            module,
            epoch,
            policy,
        } => Change::Module(Update {
            number: module,
            epoch,
            policy,
        }),
        JournalLine::RetireOk {
            module,
            epoch,
            policy,
        } => Change::Retirement(Update {
            number: module,
            epoch,
            policy,
        }),
        JournalLine::RefreshOk { epoch } => Change::Epoch(epoch),
        JournalLine::LoadAgain { .. } => Change::Nothing,
        JournalLine::LoadFull { .. } => Change::Nothing,
        JournalLine::LoadPlace { .. } => Change::Nothing,
        JournalLine::LoadVerify { .. } => Change::Nothing,
        JournalLine::LoadVersions { .. } => Change::Nothing,
        JournalLine::LoadEpochs { .. } => Change::Nothing,
        JournalLine::LoadRetired { .. } => Change::Nothing,
        JournalLine::RefreshVersions { .. } => Change::Nothing,
        JournalLine::RefreshEpochs => Change::Nothing,
        JournalLine::RetireNotLive { .. } => Change::Nothing,
        JournalLine::RetireInUse { .. } => Change::Nothing,
        JournalLine::RetireVersions { .. } => Change::Nothing,
        JournalLine::RetireEpochs { .. } => Change::Nothing,
    }
}

// A load was asked for.
fn is_load(line: JournalLine) -> bool
    ensures { result ≡ is_load line }
{
    match line {
        JournalLine::LoadOk { .. } => true,
        JournalLine::LoadAgain { .. } => true,
        JournalLine::LoadFull { .. } => true,
        JournalLine::LoadPlace { .. } => true,
        JournalLine::LoadVerify { .. } => true,
        JournalLine::LoadVersions { .. } => true,
        JournalLine::LoadEpochs { .. } => true,
        JournalLine::LoadRetired { .. } => true,
        JournalLine::RefreshOk { .. } => false,
        JournalLine::RefreshVersions { .. } => false,
        JournalLine::RefreshEpochs => false,
        JournalLine::RetireOk { .. } => false,
        JournalLine::RetireNotLive { .. } => false,
        JournalLine::RetireInUse { .. } => false,
        JournalLine::RetireVersions { .. } => false,
        JournalLine::RetireEpochs { .. } => false,
    }
}

// Who asked may ask.
fn may_ask(plan: &Plan, entry: &Entry) -> bool
    ensures { IsTrue result ↔ MayAsk plan.now entry.now.who entry.now.what }
{
    match entry.who {
        Who::Script => true,
        Who::Guest(number) => (number as usize) < plan.guests.len() && is_load(entry.what),
    }
}

// The fault of a load of a module that does not join.
fn unjoined(fault: &JoinFault) -> LineFault
    ensures { result ≡ Illegal → fault.now ≢ Memory }
{
    match fault.numbers() {
        Some(_) => LineFault::Illegal,
        None => LineFault::Memory,
    }
}

impl Reached {
    // With one module more, in a new epoch.
    fn load(self, plan: &Plan, modules: &[Module], load: Update) -> Result<Reached, LineFault>
        requires can { CanStart plan.now modules.now }
        requires reached { IsReached plan.now modules.now self }
        ensures ok { IfOk result (λ new. LineLeads plan.now modules.now (state_of self)
            (LoadOk load.number load.epoch load.policy) (state_of new)) }
        ensures kept { IfOk result (IsKeptIn plan.now) }
        ensures rows { IfOk result (λ new. new.rows ≡ self.rows) }
        ensures fault { IfErr result (IsLineFault plan.now modules.now (state_of self)
            (LoadOk load.number load.epoch load.policy)) }
    {
        must(self.is_next_epoch(load.epoch))?;
        must(self.is_next_policy(load.policy))?;
        must(is_unloaded(&self.roster, modules, load.number))?;
        let entrant = Entrant::of(plan, load.number, load.policy);
        match self.roster.add(&entrant, &modules[load.number as usize]) {
            Ok(roster) => Ok(Reached {
                epoch: load.epoch,
                policy: load.policy,
                roster,
                rows: self.rows,
            }),
            Err(fault) => Err(unjoined(&fault)),
        }
    }

    // With one module retired, in a new epoch.
    fn retire(
        self,
        plan: &Plan,
        modules: &[Module],
        retirement: Update,
    ) -> Result<Reached, LineFault>
        requires { IsReached plan.now modules.now self }
        ensures ok { IfOk result (λ new. LineLeads plan.now modules.now (state_of self)
            (RetireOk retirement.number retirement.epoch retirement.policy) (state_of new)) }
        ensures kept { IfOk result (IsKeptIn plan.now) }
        ensures rows { IfOk result (λ new. new.rows ≡ self.rows) }
        ensures fault { IfErr result (IsLineFault plan.now modules.now (state_of self)
            (RetireOk retirement.number retirement.epoch retirement.policy)) }
    {
        must(self.is_next_epoch(retirement.epoch))?;
        must(self.is_next_policy(retirement.policy))?;
        let place = match self.leaving(retirement.number) {
            Leaving::Unused(place) => place,
            Leaving::Used(_) => return Err(LineFault::Illegal),
            Leaving::NotLive => return Err(LineFault::Illegal),
        };
        let roster = self.roster.retire(place, retirement.policy)?;
        Ok(Reached {
            epoch: retirement.epoch,
            policy: retirement.policy,
            roster,
            rows: self.rows,
        })
    }

    // In a new epoch.
    fn refresh(self, plan: &Plan, modules: &[Module], epoch: u32) -> Result<Reached, LineFault>
        requires { IsReached plan.now modules.now self }
        ensures ok { IfOk result (λ new. LineLeads plan.now modules.now (state_of self)
            (RefreshOk epoch) (state_of new)) }
        ensures kept { IfOk result (IsKeptIn plan.now) }
        ensures rows { IfOk result (λ new. new.rows ≡ self.rows) }
        ensures fault { IfErr result (IsLineFault plan.now modules.now (state_of self)
            (RefreshOk epoch)) }
    {
        must(self.is_next_epoch(epoch))?;
        Ok(Reached {
            epoch,
            policy: self.policy,
            roster: self.roster,
            rows: self.rows,
        })
    }

    // After a line that changes nothing.
    fn stay(self, plan: &Plan, modules: &[Module], line: JournalLine) -> Result<Reached, LineFault>
        requires can { CanStart plan.now modules.now }
        requires reached { IsReached plan.now modules.now self }
        requires same { change_of line ≡ Nothing }
        ensures ok { IfOk result (λ new. LineLeads plan.now modules.now (state_of self)
            line (state_of new)) }
        ensures kept { IfOk result (IsKeptIn plan.now) }
        ensures rows { IfOk result (λ new. new.rows ≡ self.rows) }
        ensures fault { IfErr result (IsLineFault plan.now modules.now (state_of self) line) }
    {
        self.must_refuse(plan, modules, line)?;
        Ok(self)
    }

    // After a line.
    fn go(self, plan: &Plan, modules: &[Module], line: JournalLine) -> Result<Reached, LineFault>
        requires can { CanStart plan.now modules.now }
        requires reached { IsReached plan.now modules.now self }
        ensures ok { IfOk result (λ new. LineLeads plan.now modules.now (state_of self)
            line (state_of new)) }
        ensures kept { IfOk result (IsKeptIn plan.now) }
        ensures rows { IfOk result (λ new. new.rows ≡ self.rows) }
        ensures fault { IfErr result (IsLineFault plan.now modules.now (state_of self) line) }
    {
        match change_of(line) {
            Change::Module(load) => self.load(plan, modules, load),
            Change::Retirement(retirement) => self.retire(plan, modules, retirement),
            Change::Epoch(epoch) => self.refresh(plan, modules, epoch),
            Change::Nothing => self.stay(plan, modules, line),
        }
    }

    /// The state to which an entry leads, where it is legal.
    pub(crate) fn lead(
        self,
        plan: &Plan,
        modules: &[Module],
        entry: &Entry,
    ) -> Result<Reached, LineFault>
        requires can { CanStart plan.now modules.now }
        requires reached { IsReached plan.now modules.now self }
        ensures ok { IfOk result (λ new. EntryLeads plan.now modules.now (state_of self)
            entry.now (state_of new)) }
        ensures kept { IfOk result (IsKeptIn plan.now) }
        ensures rows { IfOk result (λ new. new.rows ≡ self.rows) }
        ensures fault { IfErr result (IsEntryFault plan.now modules.now (state_of self) entry.now) }
    {
        must(may_ask(plan, entry))?;
        self.go(plan, modules, entry.what)
    }
}
