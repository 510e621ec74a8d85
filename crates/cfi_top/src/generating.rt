//! Running drawn modules.

ghost use Rattle.std.specs.Prelude.{◌≡◌, ◌≤◌, [], length, All, IfOk, IfErr, Ok};
ghost use Rattle.cfi_commands.specs.Files.{IsFilesFault};
ghost use Rattle.cfi_commands.specs.Modules.{IsShortFile};
ghost use Rattle.cfi_gen.specs.Plan.{plan_text};
ghost use Rattle.cfi_gen.specs.Source.{file_name};
ghost use Rattle.cfi_gen.specs.declared.shape.TheConstants.{MAX_COUNT, MIN_COUNT};
ghost use Rattle.cfi_gen.specs.Generated.{AreGenerated};
ghost use Rattle.cfi_gen.specs.Measure.{IsMeasure};
ghost use Rattle.cfi_request.specs.declared.command.Command.TheVariants as commands;
ghost use Rattle.cfi_plan.specs.Plan.{IsPlan};
ghost use Rattle.cfi_plan.specs.Reading.{plan_in};
ghost use Rattle.cfi_top.specs.Outcome.{IsWorked};
ghost use Rattle.cfi_top.specs.inner.Generating.{IsOfSource, IsSourceRefused, summed};

use crate::answer::Answer;
use crate::refused::module_refused;
use crate::running::run_found;
use cfi_commands::CommandFault;
use cfi_gen::{Generated, Measure, generate, measure_of, summary};
use cfi_io::Gate;
use cfi_plan::Plan;
use cfi_request::text_of;
use cfi_values::{Bytes, Items, Text};
use std::alloc::{AllocError, Global};
use std::sync::Wait;
use std::thread::Threads;

// The name of the file of the module of a number.
fn file_name(alloc: Global, number: usize) -> Result<Text, AllocError>
    ensures { IfOk result (λ name. name ≡ file_name number) }
{
    Ok(Text::from_string(format!(in alloc; "m{number}.o")?))
}

// The refusal of the first source that has a fault, by the name of its module's file.
fn source_refused(alloc: Global, fault: CommandFault) -> Result<Answer, AllocError>
    requires { IsOfSource fault }
    ensures { IfOk result (IsSourceRefused fault) }
{
    match fault {
        CommandFault::File(number, refusal) => {
            Ok(Answer::Refused(file_name(alloc, number)?, refusal))
        }
        CommandFault::Together(_) => unreachable!(),
        CommandFault::Memory => Err(AllocError),
    }
}

// Copies of files.
fn copies_of(alloc: Global, files: &[Bytes]) -> Result<Items<Bytes>, AllocError>
    ensures { IfOk result (λ copies. copies ≡ files.now) }
{
    let mut copies = Vec::new(alloc);
    for file in files {
        copies.push(Bytes::from_vec(file.as_slice().to_vec(alloc)?))?;
    }
    Ok(Items::from_vec(copies))
}

// What a run has come to, with its summary.
fn summed(
    alloc: Global,
    seed: u64,
    count: u32,
    measure: &Measure,
    answer: Answer,
) -> Result<Answer, AllocError>
    ensures { IfOk result (λ told. told ≡ summed seed count measure.now answer) }
{
    match answer {
        Answer::Ran(run, _) => {
            let text = summary(alloc, seed, count, measure, run.report())?;
            Ok(Answer::Ran(run, Bytes::from_vec(text)))
        }
        other => Ok(other),
    }
}

// How much the modules of a plan are, whose files these are.
fn measured(alloc: Global, plan: &Plan, files: &[Bytes]) -> Result<Measure, CommandFault>
    requires sound { IsPlan plan.now }
    requires short { All IsShortFile files.now }
    ensures ok { IfOk result (IsMeasure plan.now.code_words files.now) }
    ensures fault { IfErr result (IsFilesFault plan.now.code_words files.now) }
{
    let copies = copies_of(alloc, files)?;
    measure_of(alloc, plan, copies)
}

// Runs the plan of so many modules, which are drawn of the seed and have these files.
fn run_drawn<G: Gate, R: Threads + Wait + Sync>(
    rt: &R,
    alloc: Global,
    seed: u64,
    count: u32,
    plan: &Plan,
    files: Items<Bytes>,
    gate: &G,
) -> Result<Answer, AllocError>
    requires is { plan_in (plan_text count) ≡ Ok plan.now }
    requires sound { IsPlan plan.now }
    requires number { length files ≡ length plan.now.modules }
    requires drawn { AreGenerated seed count files }
    requires short { All IsShortFile files }
    ensures { IfOk result (IsWorked (commands.Gen seed count) [] []) }
{
    let measure = match measured(alloc, plan, files.as_slice()) {
        Ok(measure) => measure,
        Err(fault) => return module_refused(alloc, plan.modules.as_slice(), fault),
    };
    let input = text_of(alloc, "plan")?;
    let answer = run_found(rt, alloc, input, plan, files, gate)?;
    summed(alloc, seed, count, &measure, answer)
}

/// Runs as many modules as are asked for, drawn of a seed, and sums up what that comes to.
pub fn generated<G: Gate, R: Threads + Wait + Sync>(
    rt: &R,
    alloc: Global,
    seed: u64,
    count: u32,
    gate: &G,
) -> Result<Answer, AllocError>
    requires least { MIN_COUNT ≤ count }
    requires most { count ≤ MAX_COUNT }
    ensures { IfOk result (IsWorked (commands.Gen seed count) [] []) }
{
    match generate(alloc, seed, count) {
        Ok(Generated { plan, files }) => run_drawn(rt, alloc, seed, count, &plan, files, gate),
        Err(fault) => source_refused(alloc, fault),
    }
}
