//! The services of a guest.

ghost use Rattle.std.specs.Prelude.{◌≡◌, ◌≢◌, ◌<◌, length, Some, IfOk, IfErr, OnOk, OnErr, [], true, ◌==◌};
ghost use Rattle.cfi_loader.specs.Results.{HasLoaded, IsLoadFault, told_lines};
ghost use Rattle.cfi_loader.specs.Told.{MayAskFor};
ghost use Rattle.cfi_plan.specs.declared.journal.Who.TheVariants.{Guest as AskerGuest};
ghost use Rattle.cfi_valid.specs.Script.{Load};
ghost use Rattle.cfi_model.specs.Log.{opens};
ghost use Rattle.cfi_model.specs.Run.{serve_of};
ghost use Rattle.cfi_model.specs.Service.{argument, reply_of, too_many};
ghost use Rattle.cfi_model.specs.declared.act.Wait.TheVariants as waits;
ghost use Rattle.rv_guest.specs.Guest.{MayAnswer};
ghost use Rattle.cfi_word.specs.declared.limits.TheConstants.{MAX_OPENS};
ghost use Rattle.cfi_word.specs.declared.services.TheConstants.{EXIT, OPEN};
ghost use Rattle.cfi_loader.specs.Passes.{heard_from};
ghost use Rattle.cfi_slips.specs.Stubs.{with_lines};
ghost use Rattle.cfi_guest_run.specs.Answered.{IsSlipOf};
ghost use Rattle.cfi_guest_run.specs.Runner.{HasAsked, IsRunner, IsServed};
ghost use Rattle.cfi_guest_run.specs.Opens.{HasAskedLoader, HasOpened, HasServedElse, HasServedOpen, Leaves};
ghost use Rattle.cfi_guest_run.specs.Serving.{HasServed, IsPassTold, KeepsPass};

use crate::causes::{cause_by, last_policy};
use cfi_io::Gate;
use cfi_loader::{LoadFault, Loaded, Loader, LoaderName, Slip};
use cfi_tables::{Pass, Tables};
use cfi_unit::Answer;
use cfi_word::limits::MAX_OPENS;
use cfi_word::services::{EXIT, NO_MODULE, OPEN, PUT, TOO_MANY};
use rv_guest::Guest;
use std::alloc::AllocError;
use std::sync::{Mutex, Wait};

// Refuses an open.
fn refuse(guest: &mut Guest, cause: u32, policy: u32)
    requires { MayAnswer (reply_of 0 cause policy []) guest.old }
    ensures { guest.new ≡ serve_of guest.old (reply_of 0 cause policy []) }
{
    guest.answer(&Answer {
        address: 0,
        cause,
        policy,
        fills: &[],
    });
}

// Tells a pass all that the keeper has seen, and the keeper what its guest has published.
fn tell<N: LoaderName>(desk: &mut Loader<N>, tables: &Tables<N>, pass: &mut Pass<N>)
    ensures told { IsPassTold N.key N.plan N.modules desk.old pass.old pass.new }
    ensures kept { desk.new ≡ heard_from pass.old desk.old }
{
    desk.note(tables, pass);
}

// Asks the loader for the module that an open names, in the name of the slip's guest.
fn ask<N: LoaderName>(
    desk: &mut Loader<N>,
    guest: &Guest,
    tables: &Tables<N>,
    slip: &mut Slip<N>,
) -> Result<Loaded, LoadFault>
    requires known { argument guest.now.base < length N.plan.modules }
    requires asks { MayAskFor desk.old (AskerGuest slip.old.guest)
        (Load (argument guest.now.base)) }
    ensures ok { IfOk result (λ loaded. HasLoaded N.key (AskerGuest slip.old.guest)
        (argument guest.now.base) loaded desk.old desk.new) }
    ensures fault { IfErr result (λ fault. IsLoadFault N.key (AskerGuest slip.old.guest)
        (argument guest.now.base) fault desk.old desk.new) }
    ensures told { slip.new ≡ with_lines (told_lines (argument guest.now.base) result) slip.old }
{
    desk.load_for(tables, guest.argument(), slip)
}

// Loads the module that an open names, and answers.
fn open_at<N: LoaderName>(
    desk: &mut Loader<N>,
    guest: &mut Guest,
    tables: &Tables<N>,
    pass: &mut Pass<N>,
    slip: &mut Slip<N>,
) -> Result<(), AllocError>
    requires runner { IsRunner N.key N.plan N.modules pass.old guest.old }
    requires asked { HasAsked N.key N.plan.fuel pass.old guest.old OPEN }
    requires slip { IsSlipOf pass.old guest.old slip.old }
    requires few { opens guest.old.base.log < MAX_OPENS }
    requires known { argument guest.old.base < length N.plan.modules }
    ensures runner { OnErr result (IsRunner N.key N.plan N.modules pass.new guest.new) }
    ensures ended { OnOk result (IsServed N.key N.plan N.modules pass.new guest.new) }
    ensures ok { OnOk result (HasServed guest.old guest.new) }
    ensures answer { OnOk result
        (HasAskedLoader N.key N.plan N.modules pass.old pass.new guest.old guest.new) }
    ensures slip { IsSlipOf pass.new guest.new slip.new }
    ensures same { OnErr result (guest.new ≡ guest.old) }
    ensures stays { pass.new.parked ≡ pass.old.parked }
    ensures keeps { KeepsPass pass.old pass.new }
{
    tell(desk, tables, pass);
    match ask(desk, guest, tables, slip) {
        Ok(loaded) => {
            tell(desk, tables, pass);
            desk.give(guest, &loaded);
        }
        Err(fault) => {
            let Some(cause) = cause_by(&fault) else {
                return Err(AllocError);
            };
            tell(desk, tables, pass);
            refuse(guest, cause, desk.force().policy);
        }
    }
    Ok(())
}

// Ends an open: a refusal where no more are logged, and where the plan lacks the module; else the loader's answer. The
// guest is parked, so that it hinders no update while it waits for the lock.
fn open<N: LoaderName, R: Wait>(
    rt: &R,
    guest: &mut Guest,
    tables: &Tables<N>,
    pass: &mut Pass<N>,
    slip: &mut Slip<N>,
    loader: &Mutex<Loader<N>>,
) -> Result<(), AllocError>
    requires inside { pass.old.parked ≡ true }
    requires runner { IsRunner N.key N.plan N.modules pass.old guest.old }
    requires asked { HasAsked N.key N.plan.fuel pass.old guest.old OPEN }
    requires slip { IsSlipOf pass.old guest.old slip.old }
    ensures runner { OnErr result (IsRunner N.key N.plan N.modules pass.new guest.new) }
    ensures ended { OnOk result (IsServed N.key N.plan N.modules pass.new guest.new) }
    ensures ok { OnOk result (HasServed guest.old guest.new) }
    ensures answer { OnOk result
        (HasOpened N.key N.plan N.modules pass.old pass.new guest.old guest.new) }
    ensures slip { IsSlipOf pass.new guest.new slip.new }
    ensures same { OnErr result (guest.new ≡ guest.old) }
    ensures stays { pass.new.parked ≡ pass.old.parked }
    ensures keeps { KeepsPass pass.old pass.new }
{
    let policy = last_policy(guest.log());
    if guest.opens() >= MAX_OPENS {
        refuse(guest, TOO_MANY, policy);
        return Ok(());
    }
    let mut desk = loader.lock(rt);
    if guest.argument() as usize >= desk.plan().modules.len() {
        refuse(guest, NO_MODULE, policy);
        return Ok(());
    }
    open_at(&mut desk, guest, tables, pass, slip)
}

// Ends a service that needs no loader.
fn end(guest: &mut Guest, number: u32)
    requires waits { guest.old.waits ≡ Some (waits.Service number) }
    requires other { number ≢ OPEN }
    ensures { guest.new ≡ serve_of guest.old too_many }
{
    match number {
        EXIT => guest.exit(),
        PUT => guest.put(),
        _ => guest.proceed(),
    }
}

// Leaves a service that needs no loader, once its work is done, by a quiescent point; a guest that exits stays parked.
fn leave<N: LoaderName>(tables: &Tables<N>, pass: &mut Pass<N>, number: u32)
    ensures { Leaves (number == EXIT) N.key pass.old pass.new }
{
    if number != EXIT {
        tables.quiet(pass);
    }
}

// Passes the gate, inside a service: the guest is parked, so that it hinders no update there.
fn pass_gate<N: LoaderName, G: Gate>(gate: &G, pass: &Pass<N>, number: u32)
    requires { pass.now.parked ≡ true }
{
    gate.pass(pass.guest(), number);
}

/// Does one service of a guest, in which it waits, as a run over its pass has left it: the guest parks, and passes the
/// gate; the service's work is done; and a quiescent point ends it, but for an exit, after which the guest stays
/// parked.
///
/// An open takes the loader's lock, but for one that is answered `TOO_MANY`. One of a module that the plan lacks is
/// answered `NO_MODULE`; for each other the pass is told all that the keeper has seen before the load and again before
/// the answer, and the slip has the line of the answer. `AllocError` comes in an open alone, where its load found no
/// memory; the open then stays unanswered, and the guest parked.
pub fn serve<N: LoaderName, G: Gate, R: Wait>(
    rt: &R,
    guest: &mut Guest,
    tables: &Tables<N>,
    pass: &mut Pass<N>,
    slip: &mut Slip<N>,
    loader: &Mutex<Loader<N>>,
    gate: &G,
    number: u32,
) -> Result<(), AllocError>
    requires runner { IsRunner N.key N.plan N.modules pass.old guest.old }
    requires asked { HasAsked N.key N.plan.fuel pass.old guest.old number }
    requires slip { IsSlipOf pass.old guest.old slip.old }
    ensures runner { IsRunner N.key N.plan N.modules pass.new guest.new }
    ensures slip { IsSlipOf pass.new guest.new slip.new }
    ensures ok { OnOk result (HasServed guest.old guest.new) }
    ensures open { OnOk result (number ≡ OPEN →
        HasServedOpen N.key N.plan N.modules pass.old pass.new guest.old guest.new) }
    ensures other { number ≢ OPEN →
        HasServedElse N.key number pass.old pass.new guest.old guest.new }
    ensures fault { OnErr result (number ≡ OPEN) }
    ensures same { OnErr result (guest.new ≡ guest.old) }
    ensures parked { OnErr result (pass.new.parked ≡ true) }
    ensures keeps { KeepsPass pass.old pass.new }
{
    tables.park(pass);
    pass_gate(gate, pass, number);
    if number == OPEN {
        open(rt, guest, tables, pass, slip, loader)?;
        tables.quiet(pass);
        return Ok(());
    }
    end(guest, number);
    leave(tables, pass, number);
    Ok(())
}
