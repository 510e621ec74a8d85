//! Running a plan, or a bare file.

ghost use Rattle.std.specs.Prelude.{◌≡◌, ◌≤◌, ◌∷◌, [], true, false, length, All, IfOk};
ghost use Rattle.cfi_guest_run.specs.Concluded.{IsConcluded};
ghost use Rattle.cfi_commands.specs.Modules.{IsShortFile};
ghost use Rattle.cfi_request.specs.declared.command.Command.TheVariants as commands;
ghost use Rattle.cfi_request.specs.Plans.{begins_as_plan, named_files, run_files};
ghost use Rattle.cfi_request.specs.Reading.{IsShort};
ghost use Rattle.cfi_plan.specs.Plan.{IsPlan};
ghost use Rattle.cfi_report.specs.Report.{report_text};
ghost use Rattle.cfi_top.specs.declared.answer.Answer.TheVariants as answers;
ghost use Rattle.cfi_top.specs.Outcome.{IsWorked};
ghost use Rattle.cfi_top.specs.inner.Running.{IsPlanRun, IsBareRun};
ghost use Rattle.cfi_word.specs.declared.limits.TheConstants.{MAX_FILE_BYTES};

use crate::answer::Answer;
use crate::refused::{bare_refused, module_refused, opening_refused, plan_refused};
use cfi_bare::{BareFault, read_bare};
use cfi_commands::{Refusal, read_modules};
use cfi_engine::{Concluded, RunFault, run_plan};
use cfi_io::Gate;
use cfi_plan::{Plan, bare_plan, read_plan};
use cfi_report::write_report;
use cfi_request::begins_as_plan;
use cfi_values::{Bytes, Items, Text};
use std::alloc::{AllocError, Global};
use std::sync::Wait;
use std::thread::Threads;

// What a run has come to, with the text of its report.
fn ran(alloc: Global, run: Concluded) -> Result<Answer, AllocError>
    ensures answer { IfOk result (λ answer. answer ≡ answers.Ran run (report_text run.report)) }
    ensures law { IfOk result (λ _. IsConcluded run) }
{
    let text = write_report(alloc, run.report())?;
    Ok(Answer::Ran(run, Bytes::from_vec(text)))
}

/// Runs a plan that is read, with the modules of these files.
pub fn run_found<G: Gate, R: Threads + Wait + Sync>(
    rt: &R,
    alloc: Global,
    input: Text,
    found: &Plan,
    files: Items<Bytes>,
    gate: &G,
) -> Result<Answer, AllocError>
    requires plan { IsPlan found.now }
    requires count { length files ≡ length found.now.modules }
    requires small { All IsShortFile files }
    ensures { IfOk result (IsPlanRun input found.now files) }
{
    let modules = match read_modules(alloc, files) {
        Ok(modules) => modules,
        Err(fault) => return module_refused(alloc, found.modules.as_slice(), fault),
    };
    match run_plan(rt, alloc, found, modules, gate) {
        Ok(run) => ran(alloc, run),
        Err(RunFault::Open(fault)) => {
            opening_refused(alloc, input, found.modules.as_slice(), fault)
        }
        Err(RunFault::Memory) => Err(AllocError),
    }
}

// Runs the plan of these bytes.
fn run_file<G: Gate, R: Threads + Wait + Sync>(
    rt: &R,
    alloc: Global,
    input: Text,
    bytes: &[u8],
    files: Items<Bytes>,
    gate: &G,
) -> Result<Answer, AllocError>
    requires begins { begins_as_plan bytes.now ≡ true }
    requires short { length bytes.now ≤ MAX_FILE_BYTES }
    requires named { length files ≡ length (named_files bytes.now) }
    requires small { All IsShort files }
    ensures { IfOk result (IsWorked (commands.Run input) (bytes.now ∷ []) files) }
{
    let found = match read_plan(alloc, bytes) {
        Ok(found) => found,
        Err(fault) => return plan_refused(input, fault),
    };
    run_found(rt, alloc, input, &found, files, gate)
}

// Runs the bare file of these bytes.
fn run_bare<G: Gate, R: Threads + Wait + Sync>(
    rt: &R,
    alloc: Global,
    input: Text,
    bytes: &[u8],
    gate: &G,
) -> Result<Answer, AllocError>
    requires short { length bytes.now ≤ MAX_FILE_BYTES }
    ensures { IfOk result (IsBareRun input bytes.now) }
{
    let made = match read_bare(alloc, bytes) {
        Ok(made) => made,
        Err(BareFault::Memory) => return Err(AllocError),
        Err(fault) => return Ok(Answer::Refused(input, Refusal::Bare(fault))),
    };
    let plan = bare_plan(alloc)?;
    let mut modules = Vec::new(alloc);
    modules.push(made)?;
    match run_plan(rt, alloc, &plan, Items::from_vec(modules), gate) {
        Ok(run) => ran(alloc, run),
        Err(RunFault::Open(fault)) => Ok(bare_refused(input, fault)),
        Err(RunFault::Memory) => Err(AllocError),
    }
}

/// Runs a file: a plan, or a bare file, which stands for a plan of its one module.
///
/// `files` are those of the plan's modules.
pub fn run<G: Gate, R: Threads + Wait + Sync>(
    rt: &R,
    alloc: Global,
    input: Text,
    bytes: &[u8],
    files: Items<Bytes>,
    gate: &G,
) -> Result<Answer, AllocError>
    requires short { length bytes.now ≤ MAX_FILE_BYTES }
    requires named { length files ≡ length (run_files bytes.now) }
    requires small { All IsShort files }
    ensures { IfOk result (IsWorked (commands.Run input) (bytes.now ∷ []) files) }
{
    if begins_as_plan(bytes) {
        return run_file(rt, alloc, input, bytes, files, gate);
    }
    run_bare(rt, alloc, input, bytes, gate)
}
