//! Running what is ready.

ghost use Rattle.std.specs.Prelude.{◌≡◌, length, All, IfOk};
ghost use Rattle.cfi_request.specs.Command.{HasInputs, inputs_of, more_of};
ghost use Rattle.cfi_request.specs.Reading.{IsShort};
ghost use Rattle.cfi_top.specs.Outcome.{IsWorked};
ghost use Rattle.cfi_top.specs.Running.{RunsGuests};

use crate::answer::Answer;
use crate::generating::generated;
use crate::running::run;
use crate::work::Ready;
use cfi_io::Gate;
use cfi_request::{Command, only};
use std::alloc::{AllocError, Global};
use std::sync::Wait;
use std::thread::Threads;

/// Runs what is ready: a file, or drawn modules.
pub fn run_ready<G: Gate, R: Threads + Wait + Sync>(
    rt: &R,
    alloc: Global,
    ready: Ready,
    gate: &G,
) -> Result<Answer, AllocError>
    requires runs { RunsGuests ready.command }
    requires number { HasInputs ready.command }
    requires count { length ready.files ≡ length (inputs_of ready.command) }
    requires short { All IsShort ready.files }
    requires named { length ready.more ≡ length (more_of ready.command ready.files) }
    requires small { All IsShort ready.more }
    ensures { IfOk result (IsWorked ready.command ready.files ready.more) }
{
    let Ready {
        command,
        files,
        more,
    } = ready;
    match command {
        Command::Run { input } => run(rt, alloc, input, only(&files), more, gate),
        Command::Gen { seed, count } => generated(rt, alloc, seed, count, gate),
        _ => unreachable!(),
    }
}
