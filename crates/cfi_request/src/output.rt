//! What the program delivers, and what it says for itself.

ghost use Rattle.std.specs.Prelude.{◌≡◌, ◌++◌, ℕ, List, IfOk, codes, string_bytes};
ghost use Rattle.cfi_request.specs.declared.output.Output.TheVariants as outputs;
ghost use Rattle.cfi_request.specs.declared.output.TheConstants.{USAGE};
ghost use Rattle.cfi_request.specs.Output.{unread_line, unread_output, unread_status, usage_line};

use crate::reading::{Cause, Unread};
use cfi_values::{Bytes, Text};
use std::alloc::{AllocError, Global};

/// What is to be delivered: a text to the sink with the status that it makes, or a file to the shelf.
#[derive(Drop)]
pub enum Output {
    /// A text, and the status where it was written whole.
    Print(u8, Bytes),
    /// The name of a file, and its bytes.
    Save(Text, Bytes),
}

/// The command's bytes were written whole.
pub const DONE: u8 = 0;

/// The words are no command.
pub const USAGE: u8 = 1;

/// The shelf failed.
pub const READ_FAULT: u8 = 2;

/// A file is not there, or too long.
pub const NO_FILE: u8 = 3;

/// The sink failed, or the shelf where a file was saved.
pub const WRITE_FAULT: u8 = 4;

/// A file was refused.
pub const REFUSED: u8 = 5;

/// No memory is left.
pub const MEMORY: u8 = 6;

// What the line of a file that was not read begins with.
fn cause_words(cause: Cause) -> &'static str
    ensures { (name : List ℕ) → unread_line name cause ≡ result.now ++ name ++ codes "\n" }
{
    match cause {
        Cause::Failed => "failed read ",
        Cause::Absent => "absent ",
        Cause::TooLong => "toolong ",
    }
}

// The line of a file of this name that was not read.
fn unread_line(alloc: Global, name: &str, cause: Cause) -> Result<String, AllocError>
    ensures { IfOk result (λ line. string_bytes line ≡ unread_line name.now cause) }
{
    let words = cause_words(cause);
    format!(in alloc; "{words}{name}\n")
}

// The status where a file was not read.
fn unread_status(cause: Cause) -> u8
    ensures { result ≡ unread_status cause }
{
    match cause {
        Cause::Failed => READ_FAULT,
        Cause::Absent => NO_FILE,
        Cause::TooLong => NO_FILE,
    }
}

/// A line for the sink.
pub fn line_of(status: u8, line: String) -> Output
    ensures { result ≡ outputs.Print status (string_bytes line) }
{
    Output::Print(status, Bytes::from_vec(line.into_bytes()))
}

/// What is to be delivered where the words are no command.
pub fn usage_output(alloc: Global) -> Result<Output, AllocError>
    ensures { IfOk result (λ output. output ≡ outputs.Print USAGE usage_line) }
{
    let line = "usage: cfi asm|list|instrument|link|verify|graph|sim|run|gen|stub|judge\n";
    Ok(line_of(USAGE, line.to_string(alloc)?))
}

/// What is to be delivered where a file was not read.
pub fn unread_output(alloc: Global, unread: &Unread) -> Result<Output, AllocError>
    ensures { IfOk result (λ output. output ≡ unread_output unread.now) }
{
    let line = unread_line(alloc, unread.name.as_str(), unread.cause)?;
    Ok(line_of(unread_status(unread.cause), line))
}
