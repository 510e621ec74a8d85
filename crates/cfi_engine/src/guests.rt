//! The guests of a plan, from their opening to their end.

ghost use Rattle.std.specs.Prelude.{◌≡◌, ◌≢◌, ◌+◌, ◌<◌, ℕ, true, None, Some, All, IfOk, OnOk, OnErr, length, slice_get};
ghost use Rattle.cfi_guest_run.specs.Concluded.{IsEndedRun};
ghost use Rattle.cfi_guest_run.specs.Runner.{Ran};
ghost use Rattle.cfi_engine.specs.Guests.{AreFirstOpened, HasAdmitted, HasCode, IsOpenedTo};
ghost use Rattle.cfi_engine.specs.Guests.{AreWaiting, IsWaiting};
ghost use Rattle.cfi_engine.specs.inner.Guests.{AreOver, IsOver};

use cfi_guest_run::{Runner, drive};
use cfi_io::Gate;
use cfi_loader::{Loader, LoaderName};
use cfi_plan::Plan;
use cfi_tables::Tables;
use rv_guest::Guest;
use std::alloc::{AllocError, Global};
use std::sync::{Mutex, Wait};
use std::thread;
use std::thread::Threads;

// The entry of the guest of this number.
fn entry_of(plan: &Plan, number: usize) -> &str
    requires { number < length plan.now.guests }
    ensures { slice_get plan.now.guests number ≡ Some result.now }
{
    plan.guests.as_slice()[number].as_str()
}

// Opens the guest of this number at its entry, with the data of the start modules and the cells, and admits it: its pass
// and its slip.
fn open_guest<N: LoaderName>(
    alloc: Global,
    loader: &mut Loader<N>,
    tables: &Tables<N>,
    number: usize,
) -> Result<Runner<N>, AllocError>
    requires number { number < length N.plan.guests }
    requires code { HasCode N.plan N.modules }
    requires opened { IsOpenedTo N.plan N.modules number loader.old }
    ensures ok { IfOk result (IsWaiting number) }
    ensures opened { OnOk result (IsOpenedTo N.plan N.modules (number + 1) loader.new) }
    ensures admitted { OnOk result (HasAdmitted loader.old loader.new) }
    ensures same { OnErr result (loader.new ≡ loader.old) }
{
    let entry = entry_of(loader.plan(), number);
    let address = loader.entry(entry).unwrap();
    let guest = Guest::open(alloc, number as u32, address, loader.fills())?;
    let (pass, slip) = loader.admit(tables).unwrap();
    Ok(Runner::new(guest, pass, slip))
}

/// Opens all guests of the plan, in order: each at its entry, with the data of the start modules and the cells, a pass and
/// a slip.
///
/// Nothing was loaded since the start, and no pass is out. Where no memory is left, some passes may have gone out; of
/// what the loader keeps nothing else is changed, either way.
pub fn open_guests<N: LoaderName>(
    alloc: Global,
    loader: &mut Loader<N>,
    tables: &Tables<N>,
) -> Result<Vec<Runner<N>>, AllocError>
    requires code { HasCode N.plan N.modules }
    requires opened { IsOpenedTo N.plan N.modules 0 loader.old }
    ensures count { IfOk result (λ runners. length runners.items ≡ length N.plan.guests) }
    ensures waiting { IfOk result (λ runners. AreWaiting runners.items) }
    ensures idle { IfOk result (λ runners.
        All (λ (ran : Ran). ran.guest.waits ≡ None) runners.items) }
    ensures opened { OnOk result (IsOpenedTo N.plan N.modules (length N.plan.guests) loader.new) }
    ensures part { OnErr result (AreFirstOpened N.plan N.modules loader.new) }
    ensures admitted { HasAdmitted loader.old loader.new }
{
    let guests = loader.plan().guests.len();
    let mut runners = Vec::new(alloc);
    for number in 0..guests {
        runners.push(open_guest(alloc, loader, tables, number)?)?;
    }
    Ok(runners)
}

/// Runs each guest to its end, on a thread of its own.
///
/// A guest whose open found no memory has not stopped, and waits in that open.
pub(crate) fn run_guests<N: LoaderName + Send + Sync, G: Gate, R: Threads + Wait + Sync>(
    rt: &R,
    tables: &Tables<N>,
    loader: &Mutex<Loader<N>>,
    gate: &G,
    fuel: u32,
    runners: &mut [Runner<N>],
)
    requires waiting { AreWaiting runners.old }
    requires fuel { fuel ≡ N.plan.fuel }
    ensures over { AreOver runners.new }
{
    let threads = runners.len().max(1);
    thread::for_each_mut(
        rt,
        runners,
        threads,
        &|number, runner: &mut Runner<N>|
            requires waiting { IsWaiting number runner.now }
            requires fuel { fuel ≡ N.plan.fuel }
            ensures over { IsOver number runner.new }
        {
            let _ = drive(rt, runner, tables, loader, gate, fuel);
        },
    );
}

/// Whether all guests have stopped.
pub(crate) fn have_stopped<N: LoaderName>(runners: &[Runner<N>]) -> bool
    requires over { AreOver runners.now }
    ensures { result ≡ true → (number : ℕ) → IsEndedRun number (slice_get runners.now number) }
{
    for runner in runners {
        if runner.guest().stop().is_none() {
            return false;
        }
    }
    true
}
