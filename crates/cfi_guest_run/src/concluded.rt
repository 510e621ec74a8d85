//! What a run has come to.

ghost use Rattle.std.specs.Prelude.{◌≡◌, ◌≢◌, ℕ, length, map, slice_get, Some, None, false, IfOk, OnOk};
ghost use Rattle.std.specs.List.{AllByRecursion};
ghost use Rattle.cfi_slips.specs.Lines.{lines_of};
ghost use Rattle.cfi_guest_run.specs.Answered.{AreAnswered};
ghost use Rattle.cfi_guest_run.specs.Concluded.{IsConcluded, IsEndedRun};
ghost use Rattle.cfi_guest_run.specs.Ending.{IsPartAt, part_by};
ghost use Rattle.cfi_guest_run.specs.inner.Ending.{AreTaken, HasNumbers};
ghost use Rattle.cfi_guest_run.specs.inner.Lines.{HasEntryFields, HasModuleFields};
ghost use Rattle.cfi_loader.specs.Passes.{with_keeping};
ghost use Rattle.cfi_guest_part.specs.Part.{HasFields};
ghost use Rattle.cfi_tables.specs.Keeping.{let_in};
ghost use Rattle.cfi_valid.specs.Loaded.{module_line_of};
ghost use Rattle.cfi_valid.specs.Script.{made_by_script, script_calls};

use crate::lines::{journal_of, modules_of};
use crate::runner::Runner;
use cfi_aux::Module;
use cfi_guest_part::part_of;
use cfi_loader::{Entry, Loader, LoaderName, ModuleLine, Seen};
use cfi_plan::Plan;
use cfi_report::{GuestPart, Report};
use cfi_tables::Tables;
use cfi_values::Items;
use std::alloc::{AllocError, Global};
use std::marker::Model;

/// What a run has come to, with its plan and its modules. Only `conclude` makes it.
///
/// Its type keeps that the report is valid for the plan and the modules, how each guest has run over the history of the
/// run, and that the journal's lines in each guest's name are those of its logged opens.
#[derive(Drop)]
pub struct Concluded {
    plan: Plan,
    modules: Items<Module>,
    report: Report,
}

impl Model for Concluded {
    ghost use Rattle.cfi_guest_run.specs.Concluded.{Conclusion, IsConcluded, conclusion_of};

    ghost Value = { Conclusion };

    ghost view = { λ a. conclusion_of a.plan a.modules a.report };

    ghost invariant = { λ a. IsConcluded (conclusion_of a.plan a.modules a.report) };
}

impl Concluded {
    /// The report.
    ///
    /// `law`: what was concluded keeps.
    pub fn report(&self) -> &Report
        ensures value { result.now ≡ self.now.report }
        ensures law { IsConcluded self.now }
    {
        &self.report
    }

    /// The plan that was run.
    pub fn plan(&self) -> &Plan
        ensures { result.now ≡ self.now.plan }
    {
        &self.plan
    }

    /// Its modules, one a line of the plan.
    pub fn modules(&self) -> &[Module]
        ensures { result.now ≡ self.now.modules }
    {
        self.modules.as_slice()
    }
}

// Takes a guest's pass and slip back, and tells what the guest has come to.
fn take_back<N: LoaderName>(
    alloc: Global,
    loader: &mut Loader<N>,
    tables: &Tables<N>,
    runner: Runner<N>,
) -> Result<GuestPart, AllocError>
    requires { runner.guest.base.stop ≢ None }
    ensures says { IfOk result (λ part. part ≡ part_by N.plan runner) }
    ensures part { IfOk result (IsPartAt N.key loader.old runner.pass.guest) }
    ensures opens { IfOk result (λ part.
        AreAnswered part.log (lines_of runner.pass.guest loader.old.course.journal)) }
    ensures fields { IfOk result HasFields }
    ensures out { OnOk result
        (loader.new ≡ with_keeping (let_in runner.pass.guest loader.old.keeping) loader.old) }
{
    let (guest, pass, slip) = runner.into_parts();
    let number = pass.guest();
    let entry = loader.plan().guests.as_slice()[number as usize].as_str();
    let part = part_of(alloc, number, entry, &guest)?;
    loader.release(tables, pass, slip);
    Ok(part)
}

// Takes all passes and slips back, and tells what the guests have come to, by their numbers.
fn take_all<N: LoaderName>(
    alloc: Global,
    loader: &mut Loader<N>,
    tables: &Tables<N>,
    runners: Vec<Runner<N>>,
) -> Result<Vec<GuestPart>, AllocError>
    requires { (number : ℕ) → IsEndedRun number (slice_get runners.items number) }
    ensures { IfOk result
        (λ parts. AreTaken N.key N.plan loader.old loader.new runners.items parts.items) }
{
    let mut parts = Vec::with_capacity(alloc, runners.len())?;
    for runner in runners {
        parts.push(take_back(alloc, loader, tables, runner)?)?;
    }
    Ok(parts)
}

// The report of a run, of parts whose numbers have 32 bits each.
fn report_of(
    force: Seen,
    modules: Vec<ModuleLine>,
    journal: Vec<Entry>,
    guests: Vec<GuestPart>,
) -> Report
    requires modules { AllByRecursion HasModuleFields modules.items }
    requires journal { AllByRecursion HasEntryFields journal.items }
    ensures is { result ≡ record {
      epoch = force.epoch;
      policy = force.policy;
      modules = modules.items;
      journal = journal.items;
      guests = guests.items;
    } }
    ensures numbers { HasNumbers result }
{
    Report {
        epoch: force.epoch,
        policy: force.policy,
        modules: Items::from_vec(modules),
        journal: Items::from_vec(journal),
        guests: Items::from_vec(guests),
    }
}

/// Takes the passes and slips back and makes the report of a run: its force, modules and journal are the loader's, its
/// guest parts those of the runners' guests.
///
/// The script was made and found memory, and there is a runner for each guest of the plan, in order, whose guest has
/// stopped. A refusal drops the loader and the runners.
pub fn conclude<N: LoaderName>(
    alloc: Global,
    loader: Loader<N>,
    tables: &Tables<N>,
    runners: Vec<Runner<N>>,
) -> Result<Concluded, AllocError>
    requires fed { loader.starved ≡ false }
    requires made { made_by_script loader.course.journal ≡ script_calls N.plan.script }
    requires count { length runners.items ≡ length N.plan.guests }
    requires ended { (number : ℕ) → IsEndedRun number (slice_get runners.items number) }
    ensures plan { IfOk result (λ run. run.plan ≡ N.plan) }
    ensures modules { IfOk result (λ run. run.modules ≡ N.modules) }
    ensures journal { IfOk result (λ run. run.report.journal ≡ loader.course.journal) }
    ensures guests { IfOk result (λ run. length run.report.guests ≡ length N.plan.guests) }
    ensures parts { IfOk result (λ run. run.report.guests ≡ map (part_by N.plan) runners.items) }
{
    let mut loader = loader;
    let force = loader.force();
    let modules = modules_of(alloc, loader.modules())?;
    let journal = journal_of(alloc, loader.journal())?;
    let guests = take_all(alloc, &mut loader, tables, runners)?;
    let report = report_of(force, modules, journal, guests);
    let (plan, modules) = loader.parts();
    Ok(Concluded {
        plan,
        modules,
        report,
    })
}
