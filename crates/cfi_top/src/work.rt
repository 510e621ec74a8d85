ghost use Rattle.std.specs.Prelude.{◌≡◌, ◌≤◌, ◌∷◌, [], length, All, IfOk};
ghost use Rattle.cfi_word.specs.declared.limits.TheConstants.{MAX_FILE_BYTES, MAX_INPUTS};
ghost use Rattle.cfi_request.specs.declared.command.Command.TheVariants as commands;
ghost use Rattle.cfi_request.specs.Command.{HasInputs, inputs_of, more_of};
ghost use Rattle.cfi_request.specs.Reading.{IsShort};
ghost use Rattle.cfi_top.specs.Outcome.{GoesOn, IsWorked, IsOutcome};
ghost use Rattle.cfi_top.specs.Running.{RunsGuests};
ghost use Rattle.cfi_top.specs.inner.Working.{ComesTo, IsToRun, IsReadToRun, IsReadyFor};

use crate::answer::Answer;
use crate::judging::judge_file;
use crate::plans::{graph, sim, verify};
use crate::refused::refused;
use cfi_commands::{CommandFault, assembled, instrumented, linked, listing_of, stubbed};
use cfi_io::Shelf;
use cfi_request::{Command, only, read_files, text_of};
use cfi_values::{Bytes, Items, Text};
use std::alloc::{AllocError, Global};

/// What a command comes to where nobody is waited for.
#[derive(Drop)]
pub enum Outcome {
    /// The command's answer.
    Answer(Answer),
    /// A run that is to be made.
    Run(Ready),
}

/// A command that runs guests, with all that is read for it.
#[derive(Drop)]
pub struct Ready {
    /// The command: it runs a file, or drawn modules.
    pub command: Command,
    /// The bytes of the files that it reads first: the one that is run, or none.
    pub files: Items<Bytes>,
    /// Those of the files that it names.
    pub more: Items<Bytes>,
}

// Assembles a source.
fn asm(alloc: Global, input: Text, output: Text, bytes: &[u8]) -> Result<Answer, AllocError>
    requires short { length bytes.now ≤ MAX_FILE_BYTES }
    ensures { IfOk result (IsWorked (commands.Asm input output) (bytes.now ∷ []) []) }
{
    match assembled(alloc, bytes) {
        Ok(file) => Ok(Answer::Save(output, Bytes::from_vec(file))),
        Err(fault) => refused(input, fault),
    }
}

// Lists an object.
fn list(alloc: Global, input: Text, bytes: &[u8]) -> Result<Answer, AllocError>
    requires short { length bytes.now ≤ MAX_FILE_BYTES }
    ensures { IfOk result (IsWorked (commands.List input) (bytes.now ∷ []) []) }
{
    match listing_of(alloc, bytes) {
        Ok(text) => Ok(Answer::Print(Bytes::from_vec(text))),
        Err(fault) => refused(input, fault),
    }
}

// Instruments a module.
fn instrument(alloc: Global, input: Text, output: Text, bytes: &[u8]) -> Result<Answer, AllocError>
    requires short { length bytes.now ≤ MAX_FILE_BYTES }
    ensures { IfOk result (IsWorked (commands.Instrument input output) (bytes.now ∷ []) []) }
{
    match instrumented(alloc, bytes) {
        Ok(made) => Ok(Answer::Save(output, Bytes::from_vec(made))),
        Err(fault) => refused(input, fault),
    }
}

// Gives a module stubs.
fn stub(alloc: Global, input: Text, output: Text, bytes: &[u8]) -> Result<Answer, AllocError>
    requires short { length bytes.now ≤ MAX_FILE_BYTES }
    ensures { IfOk result (IsWorked (commands.Stub input output) (bytes.now ∷ []) []) }
{
    match stubbed(alloc, bytes) {
        Ok(made) => Ok(Answer::Save(output, Bytes::from_vec(made))),
        Err(fault) => refused(input, fault),
    }
}

// Links modules.
fn link(
    alloc: Global,
    output: Text,
    inputs: &[Text],
    files: Items<Bytes>,
) -> Result<Answer, AllocError>
    requires few { length inputs.now ≤ MAX_INPUTS }
    requires count { length files ≡ length inputs.now }
    requires short { All IsShort files }
    ensures { IfOk result (IsWorked (commands.Link output inputs.now) files []) }
{
    match linked(alloc, files) {
        Ok(joined) => Ok(Answer::Save(output, Bytes::from_vec(joined))),
        Err(CommandFault::File(number, refusal)) => {
            let input = text_of(alloc, inputs[number].as_str())?;
            Ok(Answer::Refused(input, refusal))
        }
        Err(fault) => refused(output, fault),
    }
}

// The command is to be run.
fn to_run(command: Command, files: Items<Bytes>, more: Items<Bytes>) -> Outcome
    requires { RunsGuests command }
    ensures { ComesTo (λ answer. ⊥) (IsToRun command files more) result }
{
    Outcome::Run(Ready {
        command,
        files,
        more,
    })
}

// Does a command that waits for nobody, of whose inputs these are the bytes, and of the files that they name.
fn work(
    alloc: Global,
    command: Command,
    files: Items<Bytes>,
    more: Items<Bytes>,
) -> Result<Outcome, AllocError>
    requires number { HasInputs command }
    requires count { length files ≡ length (inputs_of command) }
    requires short { All IsShort files }
    requires named { length more ≡ length (more_of command files) }
    requires small { All IsShort more }
    ensures { IfOk result (ComesTo (IsWorked command files more) (IsToRun command files more)) }
{
    match command {
        Command::Asm { input, output } => {
            Ok(Outcome::Answer(asm(alloc, input, output, only(&files))?))
        }
        Command::List { input } => Ok(Outcome::Answer(list(alloc, input, only(&files))?)),
        Command::Instrument { input, output } => {
            Ok(Outcome::Answer(instrument(alloc, input, output, only(&files))?))
        }
        Command::Link { output, inputs } => {
            Ok(Outcome::Answer(link(alloc, output, inputs.as_slice(), files)?))
        }
        Command::Verify { plan } => Ok(Outcome::Answer(verify(alloc, plan, only(&files), more)?)),
        Command::Graph { plan } => Ok(Outcome::Answer(graph(alloc, plan, only(&files), more)?)),
        Command::Sim { plan, schedule } => {
            Ok(Outcome::Answer(sim(alloc, plan, schedule, only(&files), more)?))
        }
        Command::Run { input } => Ok(to_run(Command::Run { input }, files, more)),
        Command::Gen { seed, count } => Ok(to_run(Command::Gen { seed, count }, files, more)),
        Command::Stub { input, output } => {
            Ok(Outcome::Answer(stub(alloc, input, output, only(&files))?))
        }
        Command::Judge { input, report } => {
            Ok(Outcome::Answer(judge_file(alloc, input, report, only(&files), more)?))
        }
    }
}

// Reads the files that a command's inputs, of these bytes, name, and those after them, and does the command.
fn outcome_over<F: Shelf>(
    alloc: Global,
    command: Command,
    files: Items<Bytes>,
    shelf: &mut F,
) -> Result<Outcome, AllocError>
    requires number { HasInputs command }
    requires count { length files ≡ length (inputs_of command) }
    requires short { All IsShort files }
    ensures outcome { IfOk result (ComesTo
        (GoesOn command files (F.seen shelf.old) (F.seen shelf.new))
        (IsReadToRun command files (F.seen shelf.old))) }
    ensures same { (F.seen shelf.new).files ≡ (F.seen shelf.old).files }
    ensures faults { (F.seen shelf.old).faults ≤ (F.seen shelf.new).faults }
    ensures misses { (F.seen shelf.old).misses ≤ (F.seen shelf.new).misses }
{
    let names = command.more(alloc, &files)?;
    match read_files(alloc, shelf, &names)? {
        Ok(more) => work(alloc, command, files, more),
        Err(behind) => Ok(Outcome::Answer(Answer::Unread(behind))),
    }
}

/// Reads a command's inputs, then the files that they name, then those that come after them, all before it looks into
/// one, and does the command, where it waits for nobody.
///
/// An input that names files is looked into for their names alone.
pub fn outcome_of<F: Shelf>(
    alloc: Global,
    command: Command,
    shelf: &mut F,
) -> Result<Outcome, AllocError>
    requires number { HasInputs command }
    ensures outcome { IfOk result (ComesTo
        (IsOutcome command (F.seen shelf.old) (F.seen shelf.new))
        (IsReadyFor command (F.seen shelf.old))) }
    ensures same { (F.seen shelf.new).files ≡ (F.seen shelf.old).files }
    ensures faults { (F.seen shelf.old).faults ≤ (F.seen shelf.new).faults }
    ensures misses { (F.seen shelf.old).misses ≤ (F.seen shelf.new).misses }
{
    let names = command.inputs(alloc)?;
    match read_files(alloc, shelf, &names)? {
        Ok(files) => outcome_over(alloc, command, files, shelf),
        Err(unread) => Ok(Outcome::Answer(Answer::Unread(unread))),
    }
}
