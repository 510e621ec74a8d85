ghost use Rattle.std.specs.Prelude.{◌≡◌, ◌≢◌, ◌∷◌, [], length, All, IfOk, codes, map};
ghost use Rattle.cfi_request.specs.Words.{IsOperand, texts};
ghost use Rattle.cfi_request.specs.Command.{IsReading, inputs_of, more_of};
ghost use Rattle.cfi_request.specs.Reading.{IsShort};

use crate::drawing::drawing;
use crate::names::{
    copies_of, judged_files, named_files, named_files_and, names_of, one_name, run_files, text_of,
};
use crate::reading::only;
use crate::split::split_words;
use cfi_values::{Bytes, Items, Text};
use cfi_word::limits::MAX_INPUTS;
use std::alloc::{AllocError, Global};

/// A command of the program, with its operands: names of files, or numbers.
#[derive(Drop)]
pub enum Command {
    /// Assembles a source.
    Asm {
        /// The source's file.
        input: Text,
        /// The object's file.
        output: Text,
    },
    /// Lists the text of an object.
    List {
        /// The object's file.
        input: Text,
    },
    /// Instruments a module.
    Instrument {
        /// The module's file.
        input: Text,
        /// The file of the instrumented module.
        output: Text,
    },
    /// Links modules.
    Link {
        /// The file of the module that they make.
        output: Text,
        /// The modules' files, in order.
        inputs: Items<Text>,
    },
    /// Verifies the modules of a plan.
    Verify {
        /// The plan's file.
        plan: Text,
    },
    /// Lists the groups of the policy of a plan's modules.
    Graph {
        /// The plan's file.
        plan: Text,
    },
    /// Simulates a plan, event by event.
    Sim {
        /// The plan's file.
        plan: Text,
        /// The schedule's file, which has the events.
        schedule: Text,
    },
    /// Runs a plan, or a bare file.
    Run {
        /// The file.
        input: Text,
    },
    /// Runs modules that are drawn of a seed.
    Gen {
        /// The seed.
        seed: u64,
        /// How many modules, 2 to 32.
        count: u32,
    },
    /// Gives a module stubs for the functions that it calls and that may come later.
    Stub {
        /// The module's file.
        input: Text,
        /// The file of the module with stubs.
        output: Text,
    },
    /// Judges a report of a plan's run, or of a bare file's.
    Judge {
        /// The plan's file, or the bare one.
        input: Text,
        /// The report's file.
        report: Text,
    },
}

impl Command {
    /// The names of the files that the command reads, in order.
    pub fn inputs(&self, alloc: Global) -> Result<Vec<Text>, AllocError>
        ensures { IfOk result (λ names. names.items ≡ inputs_of self.now) }
    {
        match self {
            Command::Asm { input, .. } => one_name(alloc, input),
            Command::List { input } => one_name(alloc, input),
            Command::Instrument { input, .. } => one_name(alloc, input),
            Command::Link { inputs, .. } => copies_of(alloc, inputs.as_slice()),
            Command::Verify { plan } => one_name(alloc, plan),
            Command::Graph { plan } => one_name(alloc, plan),
            Command::Sim { plan, .. } => one_name(alloc, plan),
            Command::Run { input } => one_name(alloc, input),
            Command::Gen { .. } => Ok(Vec::new(alloc)),
            Command::Stub { input, .. } => one_name(alloc, input),
            Command::Judge { input, .. } => one_name(alloc, input),
        }
    }

    /// The names of the files that the command reads after its inputs, in order: those that the inputs name, and then
    /// those that come after them.
    ///
    /// `files` are the bytes of its inputs.
    pub fn more(&self, alloc: Global, files: &Items<Bytes>) -> Result<Vec<Text>, AllocError>
        requires count { length files.now ≡ length (inputs_of self.now) }
        requires short { All IsShort files.now }
        ensures { IfOk result (λ names. names.items ≡ more_of self.now files.now) }
    {
        match self {
            Command::Asm { .. } => Ok(Vec::new(alloc)),
            Command::List { .. } => Ok(Vec::new(alloc)),
            Command::Instrument { .. } => Ok(Vec::new(alloc)),
            Command::Link { .. } => Ok(Vec::new(alloc)),
            Command::Verify { .. } => named_files(alloc, only(files)),
            Command::Graph { .. } => named_files(alloc, only(files)),
            Command::Sim { schedule, .. } => named_files_and(alloc, only(files), schedule),
            Command::Run { .. } => run_files(alloc, only(files)),
            Command::Gen { .. } => Ok(Vec::new(alloc)),
            Command::Stub { .. } => Ok(Vec::new(alloc)),
            Command::Judge { report, .. } => judged_files(alloc, only(files), report),
        }
    }
}

// The command of this name that takes one operand.
fn unary(alloc: Global, name: &str, operand: &str) -> Result<Option<Command>, AllocError>
    requires operands { All IsOperand (operand.now ∷ []) }
    ensures { IfOk result (IsReading (name.now ∷ operand.now ∷ [])) }
{
    let input = text_of(alloc, operand)?;
    if name == "list" {
        return Ok(Some(Command::List { input }));
    }
    if name == "verify" {
        return Ok(Some(Command::Verify { plan: input }));
    }
    if name == "graph" {
        return Ok(Some(Command::Graph { plan: input }));
    }
    if name == "run" {
        return Ok(Some(Command::Run { input }));
    }
    Ok(None)
}

// The command of this name that takes two operands and no more.
fn binary(
    alloc: Global,
    name: &str,
    first: &str,
    second: &str,
) -> Result<Option<Command>, AllocError>
    requires other { name.now ≢ codes "link" }
    requires operands { All IsOperand (first.now ∷ second.now ∷ []) }
    ensures { IfOk result (IsReading (name.now ∷ first.now ∷ second.now ∷ [])) }
{
    if name == "gen" {
        return Ok(drawing(first, second));
    }
    let input = text_of(alloc, first)?;
    let output = text_of(alloc, second)?;
    if name == "asm" {
        return Ok(Some(Command::Asm { input, output }));
    }
    if name == "instrument" {
        return Ok(Some(Command::Instrument { input, output }));
    }
    if name == "sim" {
        return Ok(Some(Command::Sim {
            plan: input,
            schedule: output,
        }));
    }
    if name == "stub" {
        return Ok(Some(Command::Stub { input, output }));
    }
    if name == "judge" {
        return Ok(Some(Command::Judge {
            input,
            report: output,
        }));
    }
    Ok(None)
}

// The command that links.
fn linking(alloc: Global, operands: &[&str]) -> Result<Option<Command>, AllocError>
    requires operands { All IsOperand (map (λ word. word.now) operands.now) }
    ensures { IfOk result (IsReading (codes "link" ∷ map (λ word. word.now) operands.now)) }
{
    let Some((output, inputs)) = operands.split_first() else {
        return Ok(None);
    };
    if inputs.is_empty() || inputs.len() > MAX_INPUTS {
        return Ok(None);
    }
    let output = text_of(alloc, output)?;
    let inputs = Items::from_vec(names_of(alloc, inputs)?);
    Ok(Some(Command::Link { output, inputs }))
}

// The command of this name and these operands.
fn named(alloc: Global, name: &str, operands: &[&str]) -> Result<Option<Command>, AllocError>
    requires operands { All IsOperand (map (λ word. word.now) operands.now) }
    ensures { IfOk result (IsReading (name.now ∷ map (λ word. word.now) operands.now)) }
{
    if name == "link" {
        return linking(alloc, operands);
    }
    match operands {
        [operand] => unary(alloc, name, operand),
        [first, second] => binary(alloc, name, first, second),
        _ => Ok(None),
    }
}

/// The command that the words after the program's name are, and `None` where they are none.
pub fn command_of(alloc: Global, words: &[String]) -> Result<Option<Command>, AllocError>
    ensures { IfOk result (IsReading (texts words.now)) }
{
    match split_words(alloc, words)? {
        Some(split) => named(alloc, split.command, &split.operands),
        None => Ok(None),
    }
}
