//! The run of a plan.

ghost use Rattle.std.specs.Prelude.{◌≡◌, IfOk, IfErr, length};
ghost use Rattle.cfi_ledger.specs.Plans.{CanStart};
ghost use Rattle.cfi_loader.specs.Start.{IsStarted};
ghost use Rattle.cfi_engine.specs.Fault.{IsRunFault};
ghost use Rattle.cfi_engine.specs.Guests.{AreWaiting, HasCode};
ghost use Rattle.cfi_engine.specs.inner.Guests.{AreOver};

use crate::fault::RunFault;
use crate::guests::{have_stopped, open_guests, run_guests};
use crate::script::{count_calls, make_calls, make_rest};
use cfi_aux::Module;
use cfi_guest_run::{Concluded, Runner, conclude};
use cfi_io::Gate;
use cfi_loader::{Loader, LoaderName, Start, StartFault};
use cfi_plan::Plan;
use cfi_tables::{TableName, Tables};
use cfi_values::Items;
use std::alloc::{AllocError, Global};
use std::marker::Brand;
use std::sync::{Mutex, Wait};
use std::thread::{Threads, join_mut};

// Runs the guests, each on a thread of its own, beside the script.
fn run_beside<N: LoaderName + Send + Sync, G: Gate, R: Threads + Wait + Sync>(
    rt: &R,
    tables: &Tables<N>,
    loader: &Mutex<Loader<N>>,
    gate: &G,
    fuel: u32,
    calls: u32,
    runners: &mut [Runner<N>],
)
    requires waiting { AreWaiting runners.old }
    requires fuel { fuel ≡ N.plan.fuel }
    ensures over { AreOver runners.new }
{
    join_mut(
        rt,
        &mut ||
            requires waiting { AreWaiting runners.now }
            requires fuel { fuel ≡ N.plan.fuel }
            ensures over { AreOver runners.exit.now }
        { run_guests(rt, tables, loader, gate, fuel, runners) },
        &mut || make_calls(rt, tables, loader, gate, calls),
    );
}

// Makes what is left of the script, and concludes, unless memory was missing for a load: then the loader is starved, or a
// guest waits yet in the open that asked for it.
fn finish<N: LoaderName>(
    alloc: Global,
    mut loader: Loader<N>,
    tables: &Tables<N>,
    runners: Vec<Runner<N>>,
) -> Result<Concluded, AllocError>
    requires count { length runners.items ≡ length N.plan.guests }
    requires over { AreOver runners.items }
    ensures plan { IfOk result (λ run. run.plan ≡ N.plan) }
    ensures modules { IfOk result (λ run. run.modules ≡ N.modules) }
{
    make_rest(&mut loader, tables);
    if loader.starved() || !have_stopped(runners.as_slice()) {
        return Err(AllocError);
    }
    conclude(alloc, loader, tables, runners)
}

// Runs a plan that is started, under the name N, which is the start's.
fn run_named<N: LoaderName + Send + Sync, G: Gate, R: Threads + Wait + Sync>(
    rt: &R,
    alloc: Global,
    start: Start,
    gate: &G,
) -> Result<Concluded, AllocError>
    requires table { start.named.table ≡ N.table }
    requires key { start.named.key ≡ N.key }
    requires slips { start.slips ≡ N.slips }
    requires started { IsStarted N.plan N.modules start }
    requires code { HasCode N.plan N.modules }
    ensures plan { IfOk result (λ run. run.plan ≡ N.plan) }
    ensures modules { IfOk result (λ run. run.modules ≡ N.modules) }
{
    let (mut loader, tables) = Loader::<N>::open(start);
    let mut runners = open_guests(alloc, &mut loader, &tables)?;
    let calls = count_calls(loader.plan().script.as_slice());
    let fuel = loader.plan().fuel;
    let loader = Mutex::new(loader);
    run_beside(
        rt,
        &tables,
        &loader,
        gate,
        fuel,
        calls,
        runners.as_mut_slice(),
    );
    finish(alloc, loader.into_inner(), &tables, runners)
}

/// Runs a plan: places and verifies its start modules, runs each guest on a thread of its own beside the script, and
/// makes the report.
///
/// `modules` are those of the plan, one a line; of a plan that stands for a bare file the first is that file's. `Open`
/// is the first fault of opening it; `Memory` comes also where a load that a guest or the script asked for found no
/// memory.
pub fn run_plan<G: Gate, R: Threads + Wait + Sync>(
    rt: &R,
    alloc: Global,
    plan: &Plan,
    modules: Items<Module>,
    gate: &G,
) -> Result<Concluded, RunFault>
    requires can { CanStart plan.now modules }
    requires code { HasCode plan.now modules }
    ensures plan { IfOk result (λ run. run.plan ≡ plan.now) }
    ensures modules { IfOk result (λ run. run.modules ≡ modules) }
    ensures fault { IfErr result (IsRunFault plan.now modules) }
{
    let start = match Start::new(alloc, plan, modules) {
        Ok(start) => start,
        Err(StartFault::Open(fault)) => return Err(RunFault::Open(fault)),
        Err(StartFault::Memory) => return Err(RunFault::Memory),
    };
    Ok(run_named::<Brand, G, R>(rt, alloc, start, gate)?)
}
