//! The program `cfi_trace`: the words of the command line, the files of the current folder and standard output, for
//! `traced`.
//!
//! Stands on `cfi_top` and `cfi_io`. Proved: that it is safe. What it does is the contract of `traced`; what the real
//! files and the real output hold is not claimed. Only tested, by its example and by `.ci/statuses`: the words and the
//! status that it hands on, and what it says on standard error.
#![tactic(auto)]

use cfi_io::{DirShelf, StdSink};
use cfi_top::{MEMORY, NO_FILE, READ_FAULT, WRITE_FAULT, traced};
use std::io::ErrorKind;
use std::process::ExitCode;
use std::{env, io};

// The words after the program's name. A word that is no text is no name, and nor do no words name anything.
fn words_of(rt: &HostRuntime) -> io::Result<Vec<String>> {
    let mut words = Vec::new(rt.alloc());
    match env::args(rt) {
        Ok(found) => {
            for word in found.skip(1) {
                words.push(word)?;
            }
        }
        Err(error) if error.kind() == ErrorKind::InvalidData => {}
        Err(error) => return Err(error),
    }
    Ok(words)
}

// What standard error says of a status, for the user alone: `error` is what the system said of a call that failed.
fn explain(rt: &HostRuntime, status: u8, error: Option<io::Error>) -> io::Result<()> {
    match (status, error) {
        (READ_FAULT | NO_FILE, Some(error)) => eprintln!(rt; "cfi_trace: reading failed: {error}"),
        (WRITE_FAULT, Some(error)) => eprintln!(rt; "cfi_trace: writing failed: {error}"),
        (MEMORY, _) => eprintln!(rt; "cfi_trace: no memory is left"),
        _ => Ok(()),
    }
}

fn main(rt: HostRuntime) -> ExitCode {
    let Ok(words) = words_of(&rt) else {
        let _ = eprintln!(rt; "cfi_trace: the words of the command cannot be read");
        return ExitCode::from(MEMORY);
    };
    let mut shelf = DirShelf::new(rt, rt.alloc());
    let mut sink = StdSink::new(rt);
    let status = traced(rt.alloc(), &words, &mut shelf, &mut sink);
    let _ = explain(&rt, status, sink.error().or(shelf.error()));
    ExitCode::from(status)
}
