ghost use Rattle.std.specs.Prelude.{◌≡◌, IfOk, string_bytes};
ghost use Rattle.cfi_request.specs.declared.output.Output.TheVariants as outputs;
ghost use Rattle.cfi_request.specs.declared.output.TheConstants.{REFUSED};
ghost use Rattle.cfi_top.specs.Answer.{output_of, run_in, refused_line};

use cfi_commands::{Refusal, put_refusal};
use cfi_engine::Concluded;
use cfi_request::{DONE, Output, REFUSED, Unread, line_of, unread_output, usage_output};
use cfi_values::{Bytes, Text};
use std::alloc::{AllocError, Global};

/// What a command comes to, whatever the shelf and the sink do with it.
#[derive(Drop)]
pub enum Answer {
    /// Guests were run: what the run has come to, and the text that is printed of it.
    Ran(Concluded, Bytes),
    /// The command prints this text.
    Print(Bytes),
    /// The command saves a file of this name with these bytes.
    Save(Text, Bytes),
    /// The words are no command.
    Usage,
    /// This file of the command was not read.
    Unread(Unread),
    /// This file was refused.
    Refused(Text, Refusal),
}

// The line of a refusal of the file of this name.
fn refused_line(alloc: Global, name: &str, refusal: &Refusal) -> Result<String, AllocError>
    ensures { IfOk result (λ line. string_bytes line ≡ refused_line name.now refusal.now) }
{
    let mut line = format!(in alloc; "refused {name} ")?;
    put_refusal(&mut line, refusal)?;
    line.push_str("\n")?;
    Ok(line)
}

// What is to be delivered where a file was refused.
fn refused_output(alloc: Global, name: &str, refusal: &Refusal) -> Result<Output, AllocError>
    ensures { IfOk result (λ output.
        output ≡ outputs.Print REFUSED (refused_line name.now refusal.now)) }
{
    Ok(line_of(REFUSED, refused_line(alloc, name, refusal)?))
}

/// What is to be delivered of an answer, and what a run has come to where the answer is that of one.
pub fn output_of(alloc: Global, answer: Answer) -> Result<(Output, Option<Concluded>), AllocError>
    ensures output { IfOk result (λ told. told.0 ≡ output_of answer) }
    ensures run { IfOk result (λ told. told.1 ≡ run_in answer) }
{
    match answer {
        Answer::Ran(run, text) => Ok((Output::Print(DONE, text), Some(run))),
        Answer::Print(text) => Ok((Output::Print(DONE, text), None)),
        Answer::Save(name, bytes) => Ok((Output::Save(name, bytes), None)),
        Answer::Usage => Ok((usage_output(alloc)?, None)),
        Answer::Unread(unread) => Ok((unread_output(alloc, &unread)?, None)),
        Answer::Refused(name, refusal) => {
            Ok((refused_output(alloc, name.as_str(), &refusal)?, None))
        }
    }
}
