//! Traces: the words of a second program, of which each is a name.

ghost use Rattle.std.specs.Prelude.{◌≡◌, ◌≤◌, ◌∷◌, [], ℕ, List, length, map, All, IfOk};
ghost use Rattle.cfi_request.specs.Words.{IsOperand, texts};
ghost use Rattle.cfi_io.specs.Seen.{ShelfView};
ghost use Rattle.cfi_request.specs.declared.command.Command.TheVariants as commands;
ghost use Rattle.cfi_request.specs.Outside.{IsLater};
ghost use Rattle.cfi_request.specs.Plans.{named_files_and};
ghost use Rattle.cfi_request.specs.Reading.{IsShort};
ghost use Rattle.cfi_plan.specs.Plan.{IsPlan};
ghost use Rattle.cfi_top.specs.Tracing.{IsTraceAnswer, IsTraceOutcome, IsTraced, TraceEnds, trace_output};
ghost use Rattle.cfi_top.specs.inner.Tracing.{IsPair, IsTracedBy, TraceGoesOn};
ghost use Rattle.cfi_word.specs.declared.limits.TheConstants.{MAX_FILE_BYTES};

use crate::answer::{Answer, output_of};
use crate::plans::sim_refused;
use crate::refused::{module_refused, plan_refused};
use cfi_commands::read_modules;
use cfi_io::{Shelf, Sink};
use cfi_plan::{Plan, read_plan};
use cfi_request::{
    Command, MEMORY, Output, USAGE, deliver, line_of, only, read_files, split_words, text_of,
};
use cfi_sim::trace;
use cfi_values::{Bytes, Items, Text};
use std::alloc::{AllocError, Global};

// Traces a plan that is read, by a schedule of these bytes.
fn trace_of(
    alloc: Global,
    plan: Text,
    schedule: Text,
    found: &Plan,
    files: Items<Bytes>,
    bytes: &[u8],
) -> Result<Answer, AllocError>
    requires plan { IsPlan found.now }
    requires count { length files ≡ length found.now.modules }
    requires small { All IsShort files }
    requires short { length bytes.now ≤ MAX_FILE_BYTES }
    ensures { IfOk result (IsTracedBy plan schedule found.now files bytes.now) }
{
    let modules = match read_modules(alloc, files) {
        Ok(modules) => modules,
        Err(fault) => return module_refused(alloc, found.modules.as_slice(), fault),
    };
    match trace(alloc, found, modules, bytes) {
        Ok(text) => Ok(Answer::Print(Bytes::from_vec(text))),
        Err(fault) => sim_refused(alloc, plan, schedule, found, fault),
    }
}

// Traces the plan of these bytes. The others are those of its modules' files and, at the end, of the schedule.
fn trace_plan(
    alloc: Global,
    plan: Text,
    schedule: Text,
    bytes: &[u8],
    others: Items<Bytes>,
) -> Result<Answer, AllocError>
    requires short { length bytes.now ≤ MAX_FILE_BYTES }
    requires named { length others ≡ length (named_files_and bytes.now schedule) }
    requires small { All IsShort others }
    ensures { IfOk result (IsTraced plan schedule bytes.now others) }
{
    let found = match read_plan(alloc, bytes) {
        Ok(found) => found,
        Err(fault) => return plan_refused(plan, fault),
    };
    let mut files = others.into_vec();
    let Some(last) = files.pop() else {
        unreachable!();
    };
    let files = Items::from_vec(files);
    trace_of(alloc, plan, schedule, &found, files, last.as_slice())
}

// The command that reads the same files.
fn sim_command(alloc: Global, plan: &Text, schedule: &Text) -> Result<Command, AllocError>
    ensures { IfOk result (λ command. command ≡ commands.Sim plan.now schedule.now) }
{
    let plan = text_of(alloc, plan.as_str())?;
    let schedule = text_of(alloc, schedule.as_str())?;
    Ok(Command::Sim { plan, schedule })
}

// Reads the files that a plan of these bytes names, and the schedule, and traces it.
fn trace_over<F: Shelf>(
    alloc: Global,
    plan: Text,
    schedule: Text,
    files: Items<Bytes>,
    shelf: &mut F,
) -> Result<Answer, AllocError>
    requires one { length files ≡ 1 }
    requires short { All IsShort files }
    ensures answer { (bytes : List ℕ) → files ≡ bytes ∷ [] → IfOk result
        (TraceGoesOn plan schedule bytes (F.seen shelf.old) (F.seen shelf.new)) }
    ensures same { (F.seen shelf.new).files ≡ (F.seen shelf.old).files }
    ensures faults { (F.seen shelf.old).faults ≤ (F.seen shelf.new).faults }
    ensures misses { (F.seen shelf.old).misses ≤ (F.seen shelf.new).misses }
{
    let command = sim_command(alloc, &plan, &schedule)?;
    let names = command.more(alloc, &files)?;
    match read_files(alloc, shelf, &names)? {
        Ok(others) => trace_plan(alloc, plan, schedule, only(&files), others),
        Err(unread) => Ok(Answer::Unread(unread)),
    }
}

// Reads a plan and all that a trace of it reads, and traces it.
fn trace_files<F: Shelf>(
    alloc: Global,
    plan: Text,
    schedule: Text,
    shelf: &mut F,
) -> Result<Answer, AllocError>
    ensures answer { IfOk result (IsTraceOutcome plan schedule
        (F.seen shelf.old)
        (F.seen shelf.new)) }
    ensures same { (F.seen shelf.new).files ≡ (F.seen shelf.old).files }
    ensures faults { (F.seen shelf.old).faults ≤ (F.seen shelf.new).faults }
    ensures misses { (F.seen shelf.old).misses ≤ (F.seen shelf.new).misses }
{
    let command = sim_command(alloc, &plan, &schedule)?;
    let names = command.inputs(alloc)?;
    match read_files(alloc, shelf, &names)? {
        Ok(files) => trace_over(alloc, plan, schedule, files, shelf),
        Err(unread) => Ok(Answer::Unread(unread)),
    }
}

// The names that words are.
fn pair_of(alloc: Global, plan: &str, operands: &[&str]) -> Result<Option<(Text, Text)>, AllocError>
    requires { All IsOperand (plan.now ∷ map (λ word. word.now) operands.now) }
    ensures { IfOk result (IsPair (plan.now ∷ map (λ word. word.now) operands.now)) }
{
    match operands {
        [schedule] => {
            let plan = text_of(alloc, plan)?;
            let schedule = text_of(alloc, schedule)?;
            Ok(Some((plan, schedule)))
        }
        _ => Ok(None),
    }
}

// The plan and the schedule that the words name.
fn names_in(alloc: Global, words: &[String]) -> Result<Option<(Text, Text)>, AllocError>
    ensures { IfOk result (IsPair (texts words.now)) }
{
    match split_words(alloc, words)? {
        Some(split) => pair_of(alloc, split.command, &split.operands),
        None => Ok(None),
    }
}

// What the words come to.
fn trace_answer<F: Shelf>(
    alloc: Global,
    words: &[String],
    shelf: &mut F,
) -> Result<Answer, AllocError>
    ensures answer { IfOk result (IsTraceAnswer (texts words.now)
        (F.seen shelf.old)
        (F.seen shelf.new)) }
    ensures same { (F.seen shelf.new).files ≡ (F.seen shelf.old).files }
    ensures faults { (F.seen shelf.old).faults ≤ (F.seen shelf.new).faults }
    ensures misses { (F.seen shelf.old).misses ≤ (F.seen shelf.new).misses }
{
    match names_in(alloc, words)? {
        Some((plan, schedule)) => trace_files(alloc, plan, schedule, shelf),
        None => Ok(Answer::Usage),
    }
}

// What is to be delivered.
fn trace_output(alloc: Global, answer: Answer) -> Result<Output, AllocError>
    ensures { IfOk result (λ output. output ≡ trace_output answer) }
{
    if let Answer::Usage = answer {
        let line = "usage: cfi_trace PLAN SCHEDULE\n";
        return Ok(line_of(USAGE, line.to_string(alloc)?));
    }
    let (output, _run) = output_of(alloc, answer)?;
    Ok(output)
}

// Delivers an answer, and says with which status the program ends.
fn told<F: Shelf, S: Sink>(alloc: Global, answer: Answer, shelf: &mut F, sink: &mut S) -> u8
    ensures ends { (words : List (List ℕ)) → (before : ShelfView) →
        IsLater before (F.seen shelf.old) →
        IsTraceAnswer words before (F.seen shelf.old) answer → TraceEnds words before
        (F.seen shelf.new)
        (S.seen sink.old)
        (S.seen sink.new) result }
{
    let Ok(output) = trace_output(alloc, answer) else {
        return MEMORY;
    };
    deliver(shelf, sink, &output)
}

/// Traces a plan by a schedule, the two words, and answers the status with which the program ends.
///
/// It reads the files that `sim` reads, in the same order, and prints the schedule line by line, with a line for each
/// unit, table word and try of a guest's events. What `sim` refuses is refused in the same words, with the same
/// statuses: 0 where the trace was written whole, 1 where there are not two names, 2 where the shelf failed, 3 where a
/// file is not there or too long, 4 where the sink failed, 5 where a file was refused, 6 where no memory was left.
pub fn traced<F: Shelf, S: Sink>(alloc: Global, words: &[String], shelf: &mut F, sink: &mut S) -> u8
    ensures ends { TraceEnds (texts words.now)
        (F.seen shelf.old)
        (F.seen shelf.new)
        (S.seen sink.old)
        (S.seen sink.new) result }
{
    match trace_answer(alloc, words, shelf) {
        Ok(answer) => told(alloc, answer, shelf, sink),
        Err(_) => MEMORY,
    }
}
