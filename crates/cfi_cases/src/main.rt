//! Cases of the program: each is words, files and calls that fail, and what the program must answer.
//!
//! Stands on `cfi_top`, `cfi_report` and `cfi_io`; the files named by `args`, which lie in `data/`, hold the cases, and
//! `data/README.txt` says how they are written. Each case runs `top` over a shelf and a sink in memory. A line is
//! printed for what differs, and at the end the number of cases and of differences. Proved: that it is safe.
#![tactic(auto)]

mod entry;
mod files;
mod gate;
mod log;
mod pieces;
mod reader;
mod reports;
mod session;

use crate::reader::entries_of;
use crate::session::Session;
use std::sync::Wait;
use std::thread::Threads;
use std::{env, fs, io};

// Plays the cases of a file. Only `main` hands on the right to start threads, which `threads` has.
fn play<R: Threads + Wait + Sync>(
    threads: &R,
    rt: &HostRuntime,
    session: &mut Session,
    name: &str,
) -> io::Result<()> {
    let Ok(text) = fs::read_to_string(rt, name) else {
        session.miss(name)?;
        return Ok(());
    };
    let entries = entries_of(rt.alloc(), &text)?;
    session.play(threads, name, &entries)?;
    Ok(())
}

fn main(rt: HostRuntime) -> io::Result<()> {
    let mut session = Session::new(rt.alloc());
    for name in env::args(&rt)?.skip(1) {
        play(&rt, &rt, &mut session, &name)?;
    }
    print!(rt; "{}", session.report()?)
}
