//! A guest with the pass that loads for it, and how it is run to its end.

ghost use Rattle.std.specs.Prelude.{◌≡◌, ◌≢◌, Some, None, OnOk, OnErr, []};
ghost use Rattle.cfi_model.specs.declared.act.Wait.TheVariants as waits;
ghost use Rattle.cfi_word.specs.declared.services.TheConstants.{OPEN};
ghost use Rattle.cfi_slips.specs.Stubs.{slip_by};
ghost use Rattle.cfi_guest_run.specs.Runner.{IsOpening, IsRan, IsRunner};
ghost use Rattle.cfi_guest_run.specs.Serving.{KeepsPass};

use crate::serving::serve;
use cfi_io::Gate;
use cfi_loader::{Loader, LoaderName, Slip};
use cfi_runner::{Pause, run_until};
use cfi_tables::{Pass, Tables};
use rv_guest::Guest;
use std::alloc::AllocError;
use std::marker::Model;
use std::sync::{Mutex, Wait};

// How many words keep two cache lines between guests.
const APART: usize = 16;

/// A guest of a plan, with its pass and its slip.
///
/// Its type keeps that the guest is where the raw machine is after what the pass has loaded and what its opens were
/// answered, that its log fits what the pass has settled, that its steps are within the plan's fuel, that it is not
/// parked and can run on where it has not stopped and waits for nothing, and that the slip says, in order, the lines of
/// the opens in its log.
#[derive(Drop)]
pub struct Runner<N: LoaderName> {
    guest: Guest,
    pass: Pass<N>,
    slip: Slip<N>,
    // Runners lie side by side, each with a thread of its own: what one stores in a step shares no cache line with the
    // next one, and so takes none away from it.
    apart: [u64; APART],
}

impl<N: LoaderName> Model for Runner<N> {
    ghost use Rattle.cfi_guest_run.specs.Runner.{IsRan, Ran};

    ghost Value = { Ran };

    ghost view = { λ a. record { guest = a.guest; pass = a.pass; slip = a.slip } };

    ghost invariant = { λ a.
        IsRan N.key N.plan N.modules (record { guest = a.guest; pass = a.pass; slip = a.slip }) };
}

impl<N: LoaderName> Runner<N> {
    /// The runner of a guest as `Guest::open` leaves it for the plan's guest of the pass's number, at a start of the
    /// image in force, with a pass and a slip as `Loader::admit` gives them where nothing was told in the guest's name.
    pub fn new(guest: Guest, pass: Pass<N>, slip: Slip<N>) -> Runner<N>
        requires opening { IsOpening N.key N.plan N.modules pass guest }
        requires slip { slip ≡ slip_by pass.guest [] }
        ensures { result ≡ record { guest = guest; pass = pass; slip = slip } }
    {
        Runner {
            guest,
            pass,
            slip,
            apart: [0; APART],
        }
    }

    /// The guest.
    ///
    /// `law`: what the runner keeps at every moment.
    pub fn guest(&self) -> &Guest
        ensures value { result.now ≡ self.now.guest }
        ensures law { IsRunner N.key N.plan N.modules self.now.pass self.now.guest }
    {
        &self.guest
    }

    /// The guest, its pass and its slip.
    ///
    /// `law`: what the runner has kept.
    pub(crate) fn into_parts(self) -> (Guest, Pass<N>, Slip<N>)
        ensures guest { result.0 ≡ self.guest }
        ensures pass { result.1 ≡ self.pass }
        ensures slip { result.2 ≡ self.slip }
        ensures law { IsRan N.key N.plan N.modules self }
    {
        let Runner {
            guest,
            pass,
            slip,
            ..
        } = self;
        (guest, pass, slip)
    }
}

impl<N: LoaderName> Runner<N> {
    // Runs the guest until it pauses, and does the service that it asks for.
    fn turn<G: Gate, R: Wait>(
        &mut self,
        rt: &R,
        tables: &Tables<N>,
        loader: &Mutex<Loader<N>>,
        gate: &G,
        fuel: u32,
    ) -> Result<(), AllocError>
        requires going { self.old.guest.base.stop ≡ None }
        requires idle { self.old.guest.waits ≡ None }
        requires fuel { fuel ≡ N.plan.fuel }
        ensures ok { OnOk result (self.new.guest.waits ≡ None) }
        ensures fault { OnErr result (self.new.guest.waits ≡ Some (waits.Service OPEN)) }
        ensures keeps { KeepsPass self.old.pass self.new.pass }
    {
        match run_until(&mut self.guest, tables, &mut self.pass, fuel) {
            Pause::Service(number) => serve(
                rt,
                &mut self.guest,
                tables,
                &mut self.pass,
                &mut self.slip,
                loader,
                gate,
                number,
            ),
            _ => Ok(()),
        }
    }
}

/// Runs a runner's guest until it has stopped, with a service each time that it asks for one.
///
/// The guest waits for nothing, and `fuel` is the plan's. It takes the loader's lock in opens alone. `AllocError` is
/// that of `serve`, for an open whose load found no memory: the guest then waits in it.
pub fn drive<N: LoaderName, G: Gate, R: Wait>(
    rt: &R,
    runner: &mut Runner<N>,
    tables: &Tables<N>,
    loader: &Mutex<Loader<N>>,
    gate: &G,
    fuel: u32,
) -> Result<(), AllocError>
    requires idle { runner.old.guest.waits ≡ None }
    requires fuel { fuel ≡ N.plan.fuel }
    ensures stopped { OnOk result (runner.new.guest.base.stop ≢ None) }
    ensures fault { OnErr result (runner.new.guest.waits ≡ Some (waits.Service OPEN)) }
    ensures keeps { KeepsPass runner.old.pass runner.new.pass }
{
    for _ in rt.forever() {
        if runner.guest().stop().is_some() {
            return Ok(());
        }
        runner.turn(rt, tables, loader, gate, fuel)?;
    }
    unreachable!()
}
