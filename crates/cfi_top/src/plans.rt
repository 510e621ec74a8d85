//! The commands on the modules of a plan.

ghost use Rattle.std.specs.Prelude.{◌≡◌, ◌≤◌, ◌∷◌, [], length, All, IfOk};
ghost use Rattle.cfi_word.specs.declared.limits.TheConstants.{MAX_FILE_BYTES};
ghost use Rattle.cfi_request.specs.declared.command.Command.TheVariants as commands;
ghost use Rattle.cfi_top.specs.Outcome.{IsWorked};
ghost use Rattle.cfi_request.specs.Plans.{named_files, named_files_and};
ghost use Rattle.cfi_request.specs.Reading.{IsShort};
ghost use Rattle.cfi_plan.specs.Plan.{IsPlan};
ghost use Rattle.cfi_top.specs.inner.Simulating.{IsSimAmong, IsSimRefused, IsSimulated};

use crate::answer::Answer;
use crate::refused::{module_refused, opening_refused, plan_refused};
use cfi_commands::{Refusal, graph_text, read_modules, verified_text};
use cfi_plan::{Plan, read_plan};
use cfi_sim::{SimFault, simulate, write_sim};
use cfi_values::{Bytes, Items, Text};
use std::alloc::{AllocError, Global};

/// Verifies the modules of a plan, in order.
///
/// `bytes` are those of the plan, `files` those of its modules.
pub fn verify(
    alloc: Global,
    plan: Text,
    bytes: &[u8],
    files: Items<Bytes>,
) -> Result<Answer, AllocError>
    requires short { length bytes.now ≤ MAX_FILE_BYTES }
    requires named { length files ≡ length (named_files bytes.now) }
    requires small { All IsShort files }
    ensures { IfOk result (IsWorked (commands.Verify plan) (bytes.now ∷ []) files) }
{
    let found = match read_plan(alloc, bytes) {
        Ok(found) => found,
        Err(fault) => return plan_refused(plan, fault),
    };
    match verified_text(alloc, &found, files) {
        Ok(text) => Ok(Answer::Print(Bytes::from_vec(text))),
        Err(fault) => module_refused(alloc, found.modules.as_slice(), fault),
    }
}

/// Lists the groups of the policy of a plan's modules.
///
/// `bytes` are those of the plan, `files` those of its modules.
pub fn graph(
    alloc: Global,
    plan: Text,
    bytes: &[u8],
    files: Items<Bytes>,
) -> Result<Answer, AllocError>
    requires short { length bytes.now ≤ MAX_FILE_BYTES }
    requires named { length files ≡ length (named_files bytes.now) }
    requires small { All IsShort files }
    ensures { IfOk result (IsWorked (commands.Graph plan) (bytes.now ∷ []) files) }
{
    let found = match read_plan(alloc, bytes) {
        Ok(found) => found,
        Err(fault) => return plan_refused(plan, fault),
    };
    match graph_text(alloc, &found, files) {
        Ok(text) => Ok(Answer::Print(Bytes::from_vec(text))),
        Err(fault) => module_refused(alloc, found.modules.as_slice(), fault),
    }
}

/// The refusal of a plan or a schedule of which there is no simulation.
pub fn sim_refused(
    alloc: Global,
    plan: Text,
    schedule: Text,
    found: &Plan,
    fault: SimFault,
) -> Result<Answer, AllocError>
    requires { IsSimAmong (length found.now.modules) fault }
    ensures { IfOk result (IsSimRefused plan schedule found.now.modules fault) }
{
    match fault {
        SimFault::Open(fault) => opening_refused(alloc, plan, found.modules.as_slice(), fault),
        SimFault::BadEvent(line) => Ok(Answer::Refused(schedule, Refusal::Sim(line))),
        SimFault::Memory => Err(AllocError),
    }
}

// Makes a simulation of a plan that is read, by a schedule of these bytes.
fn sim_of(
    alloc: Global,
    plan: Text,
    schedule: Text,
    found: &Plan,
    files: Items<Bytes>,
    bytes: &[u8],
) -> Result<Answer, AllocError>
    requires plan { IsPlan found.now }
    requires count { length files ≡ length found.now.modules }
    requires small { All IsShort files }
    requires short { length bytes.now ≤ MAX_FILE_BYTES }
    ensures { IfOk result (IsSimulated plan schedule found.now files bytes.now) }
{
    let modules = match read_modules(alloc, files) {
        Ok(modules) => modules,
        Err(fault) => return module_refused(alloc, found.modules.as_slice(), fault),
    };
    match simulate(alloc, found, modules, bytes) {
        Ok(sim) => Ok(Answer::Print(Bytes::from_vec(write_sim(alloc, &sim)?))),
        Err(fault) => sim_refused(alloc, plan, schedule, found, fault),
    }
}

/// Makes a simulation of a plan by a schedule.
///
/// `bytes` are those of the plan, `others` those of its modules' files and, at the end, of the schedule.
pub fn sim(
    alloc: Global,
    plan: Text,
    schedule: Text,
    bytes: &[u8],
    others: Items<Bytes>,
) -> Result<Answer, AllocError>
    requires short { length bytes.now ≤ MAX_FILE_BYTES }
    requires named { length others ≡ length (named_files_and bytes.now schedule) }
    requires small { All IsShort others }
    ensures { IfOk result (IsWorked (commands.Sim plan schedule) (bytes.now ∷ []) others) }
{
    let found = match read_plan(alloc, bytes) {
        Ok(found) => found,
        Err(fault) => return plan_refused(plan, fault),
    };
    let mut files = others.into_vec();
    let Some(last) = files.pop() else {
        unreachable!();
    };
    let files = Items::from_vec(files);
    sim_of(alloc, plan, schedule, &found, files, last.as_slice())
}
