//! Whole runs of plans under gates, and a guest that is driven while another thread holds the loader's lock.

ghost use Rattle.std.specs.Prelude.{◌≡◌, None};
ghost use Rattle.cfi_engine.specs.Guests.{HasCode};
ghost use Rattle.cfi_loader.specs.Start.{IsStarted};

use crate::files::planned;
use crate::gates::{Holding, Watched};
use cfi_engine::{Runner, drive, open_guests, run_plan};
use cfi_loader::{Loader, LoaderName, Start};
use cfi_report::write_report;
use cfi_tables::{TableName, Tables};
use cfi_word::limits::MAX_OPENS;
use cfi_word::services::{REFUSED, TOO_MANY};
use rv_guest::{Guest, Log, Stop};
use std::alloc::Global;
use std::marker::Brand;
use std::sync::{Mutex, Wait};
use std::thread::{Threads, join};

/// The texts of a plan and of the sources of its modules.
#[derive(Debug, Drop)]
pub struct Texts {
    /// The plan.
    pub plan: Vec<u8>,
    /// The sources, one a module line.
    pub sources: Vec<Vec<u8>>,
}

/// A run of the plan under the gate has this report, and nobody has waited at the gate in vain.
pub fn is_run_to<G: Watched, R: Threads + Wait + Sync>(
    rt: &R,
    alloc: Global,
    texts: Texts,
    gate: &G,
    report: Vec<u8>,
) -> bool {
    let Some((plan, modules)) = planned(alloc, &texts.plan, texts.sources.as_slice()) else {
        return false;
    };
    let Ok(run) = run_plan(rt, alloc, &plan, modules, gate) else {
        return false;
    };
    match write_report(alloc, run.report()) {
        Ok(text) => text.as_slice() == report.as_slice() && gate.is_kept(),
        Err(_) => false,
    }
}

// Whether the guest has called and returned, passed a quiescent point and exited, under policy 0 and without a repeated
// try.
fn has_called(guest: &Guest) -> bool {
    let picks = Log::Pick {
        policy: 0,
        count: 2,
    };
    guest.stop() == Some(Stop::Exit(0))
        && guest.log() == [picks].as_slice()
        && guest.units() == 8
        && guest.steps() == 26
}

// Whether the guest has opened as often as it may, was then served with no lock, and exited: a service that is not there
// is refused, and so is one open more.
fn is_served(guest: &Guest) -> bool {
    guest.stop() == Some(Stop::Exit(0))
        && guest.log().len() == MAX_OPENS as usize
        && guest.output() == [(REFUSED % 256) as u8, TOO_MANY as u8].as_slice()
}

// What a guest does while the lock is held.
#[derive(Clone, Copy, Debug)]
enum Task {
    // All that it does.
    Call,
    // What comes after its quiescent point.
    Services,
}

impl Task {
    // Whether the guest has done it.
    fn is_done(self, guest: &Guest) -> bool {
        match self {
            Task::Call => has_called(guest),
            Task::Services => is_served(guest),
        }
    }
}

// Holds the loader's lock from when the guest has come until it has ended. Whether it has.
fn hold<N: LoaderName, R: Wait>(rt: &R, loader: &Mutex<Loader<N>>, gate: &Holding) -> bool {
    if !gate.has_come() {
        return false;
    }
    let _desk = loader.lock(rt);
    gate.hold()
}

// Drives a guest while the lock is held, from the first or from its quiescent point on. Whether it has done its task.
fn drive_beside<N: LoaderName, R: Wait>(
    rt: &R,
    mut runner: Runner<N>,
    tables: &Tables<N>,
    loader: &Mutex<Loader<N>>,
    fuel: u32,
    gate: &Holding,
    task: Task,
) -> bool
    requires idle { runner.guest.waits ≡ None }
    requires fuel { fuel ≡ N.plan.fuel }
{
    if let Task::Call = task {
        gate.come();
    }
    let drove = drive(rt, &mut runner, tables, loader, gate, fuel).is_ok();
    gate.end() && drove && task.is_done(runner.guest())
}

// Drives the first guest of a start while another thread holds the lock.
fn driven<N: LoaderName + Send + Sync, R: Threads + Wait + Sync>(
    rt: &R,
    alloc: Global,
    start: Start,
    task: Task,
) -> bool
    requires table { start.named.table ≡ N.table }
    requires key { start.named.key ≡ N.key }
    requires slips { start.slips ≡ N.slips }
    requires started { IsStarted N.plan N.modules start }
    requires code { HasCode N.plan N.modules }
{
    let (mut loader, tables) = Loader::<N>::open(start);
    let Ok(mut runners) = open_guests(alloc, &mut loader, &tables) else {
        return false;
    };
    let Some(runner) = runners.pop() else {
        return false;
    };
    let fuel = loader.plan().fuel;
    let loader = Mutex::new(loader);
    let gate = Holding::new();
    let (kept, drove) = join(
        rt,
        || -> bool { hold(rt, &loader, &gate) },
        || -> bool
            requires idle { runner.guest.waits ≡ None }
            requires fuel { fuel ≡ N.plan.fuel }
        { drive_beside(rt, runner, &tables, &loader, fuel, &gate, task) },
    );
    kept && drove
}

// A guest of a plan does its task while another thread holds the loader's lock.
fn does_beside_a_held_lock<R: Threads + Wait + Sync>(
    rt: &R,
    alloc: Global,
    texts: Texts,
    task: Task,
) -> bool {
    let Some((plan, modules)) = planned(alloc, &texts.plan, texts.sources.as_slice()) else {
        return false;
    };
    let Ok(start) = Start::new(alloc, &plan, modules) else {
        return false;
    };
    driven::<Brand, R>(rt, alloc, start, task)
}

/// A guest that opens nothing runs to its end while another thread holds the loader's lock.
pub fn a_guest_beside_a_held_lock<R: Threads + Wait + Sync>(
    rt: &R,
    alloc: Global,
    texts: Texts,
) -> bool {
    does_beside_a_held_lock(rt, alloc, texts, Task::Call)
}

/// A guest that has opened as often as it may is served to its end while another thread holds the loader's lock: a put,
/// a service that is not there, a masked access, and one open more.
pub fn services_beside_a_held_lock<R: Threads + Wait + Sync>(
    rt: &R,
    alloc: Global,
    texts: Texts,
) -> bool {
    does_beside_a_held_lock(rt, alloc, texts, Task::Services)
}
