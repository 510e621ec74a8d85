//! One event of a guest.

ghost use Rattle.std.specs.Prelude.{◌≡◌, ◌+◌, ◌<◌, ◌≤◌, ◌^◌, ◌||◌, None, Some, is_some, if◌then◌else◌};
ghost use Rattle.cfi_word.specs.Table.{Tary};
ghost use Rattle.cfi_model.specs.declared.act.Wait.TheVariants.{Service};
ghost use Rattle.cfi_model.specs.declared.quiet.Point.TheVariants.{Asking, Outside};
ghost use Rattle.cfi_model.specs.Log.{last_policy};
ghost use Rattle.cfi_model.specs.Run.{serve_of};
ghost use Rattle.cfi_model.specs.Service.{too_many};
ghost use Rattle.cfi_model.specs.Words.{policy_in_force, word_at};
ghost use Rattle.cfi_word.specs.Word.{policy_in};
ghost use Rattle.cfi_model.specs.InForce.{tary_index};
ghost use Rattle.cfi_world.specs.Seats.{is_asking, left_by, loads, needs_answer, rested, seat_after, seat_by};
ghost use Rattle.cfi_world.specs.Turns.{turned_by};
ghost use Rattle.cfi_world.specs.inner.Parts.{seat_by_parts};

use crate::event::Turned;
use crate::tables::Tables;
use cfi_model::{Answer, Point, Quiet};
use cfi_word::limits::MAX_OPENS;
use cfi_word::services::{EXIT, OPEN, PUT, TOO_MANY};
use rv_guest::{Guest, Wait};

// Stops a guest that would fetch next and has had as many instructions as the fuel.
#[inline(always)]
fn rest(guest: &mut Guest, fuel: u32)
    ensures { guest.new ≡ rested fuel guest.old }
{
    if guest.waits().is_none() {
        let _ = guest.spend(fuel);
    }
}

// The place of the Tary word of an address: one past the code is that of code word 0.
fn tary_index(code_words: u32, at: u32) -> u32
    requires { 0 < code_words }
    ensures value { result ≡ tary_index code_words at }
    ensures within { result < code_words }
{
    let index = at / 4;
    if index < code_words { index } else { 0 }
}

/// The Tary word of an address.
pub fn tary(tables: &Tables, at: u32) -> u64
    ensures word { let t = tables.now.tables in
        result ≡ word_at t (Tary (tary_index t.code_words at)) }
    ensures rises { policy_in_force tables.now.tables ≤ policy_in result }
{
    tables.tary(tary_index(tables.code_words(), at))
}

// The guest fetches a code word, or loads the table word that it waits for.
#[inline(always)]
fn load(guest: &mut Guest, tables: &Tables)
    requires steps { guest.old.waits ≡ None → guest.old.base.steps + 1 < 2 ^ 32 }
    requires logged { last_policy guest.old.base.log ≤ policy_in_force tables.now.tables }
    ensures { guest.new ≡ loads guest.old.waits tables.now.tables guest.old }
{
    match guest.waits() {
        None => {
            let word = tables.code(guest.pc() / 4);
            let _ = guest.begin(word);
        }
        Some(Wait::Tary { at, .. }) => guest.finish(tary(tables, at)),
        Some(Wait::Bary { slot, .. }) => guest.finish(tables.bary(slot)),
        Some(Wait::Service(_)) => {}
    }
}

// Ends a service that needs no answer.
fn end(guest: &mut Guest, tables: &Tables, number: u32)
    requires waits { guest.old.waits ≡ Some (Service number) }
    requires logged { last_policy guest.old.base.log ≤ policy_in_force tables.now.tables }
    ensures { guest.new ≡ serve_of guest.old too_many }
{
    match number {
        EXIT => guest.exit(),
        PUT => guest.put(),
        OPEN => guest.answer(&Answer {
            address: 0,
            cause: TOO_MANY,
            policy: tables.policy(),
            fills: &[],
        }),
        _ => guest.proceed(),
    }
}

// Does a service's work, or leaves it to the answer that it needs.
fn work(guest: &mut Guest, tables: &Tables, number: u32) -> Point
    requires waits { guest.old.waits ≡ Some (Service number) }
    requires logged { last_policy guest.old.base.log ≤ policy_in_force tables.now.tables }
    ensures guest { guest.new ≡ (if needs_answer number guest.old then guest.old
        else serve_of guest.old too_many) }
    ensures point { result ≡ (if needs_answer number guest.old then Asking
        else left_by (serve_of guest.old too_many)) }
{
    if number == OPEN && guest.opens() < MAX_OPENS {
        return Point::Asking;
    }
    end(guest, tables, number);
    if guest.stop().is_some() {
        Point::Outside
    } else {
        Point::Leaving
    }
}

// The next access of a guest outside services: one that asks for a service parks.
#[inline(always)]
fn go_on(guest: &mut Guest, point: &mut Point, quiet: &mut Quiet, tables: &Tables, fuel: u32)
    requires outside { point.old ≡ Outside }
    requires steps { guest.old.waits ≡ None → guest.old.base.steps + 1 < 2 ^ 32 }
    requires logged { last_policy guest.old.base.log ≤ policy_in_force tables.now.tables }
    ensures { seat_by_parts guest.new point.new quiet.new ≡ seat_by guest.old.waits
        tables.now.tables fuel (seat_by_parts guest.old point.old quiet.old) }
{
    if let Some(Wait::Service(number)) = guest.waits() {
        *quiet = Quiet::Parked;
        *point = work(guest, tables, number);
        return;
    }
    load(guest, tables);
    rest(guest, fuel);
}

// A guest's next access: outside services, or one of the quiescent point that ends a service.
#[inline(always)]
fn access(guest: &mut Guest, point: &mut Point, quiet: &mut Quiet, tables: &Tables, fuel: u32)
    requires steps { point.old ≡ Outside → guest.old.waits ≡ None
        → guest.old.base.steps + 1 < 2 ^ 32 }
    requires logged { last_policy guest.old.base.log ≤ policy_in_force tables.now.tables }
    ensures { seat_by_parts guest.new point.new quiet.new ≡
        seat_after tables.now.tables fuel (seat_by_parts guest.old point.old quiet.old) }
{
    match *point {
        Point::Outside => go_on(guest, point, quiet, tables, fuel),
        Point::Asking => {}
        Point::Leaving => *point = Point::Found(tables.epoch()),
        Point::Found(epoch) => {
            *quiet = Quiet::Published(epoch);
            *point = Point::Outside;
            rest(guest, fuel);
        }
    }
}

/// Whether a guest waits for the answer to its open.
#[inline(always)]
pub fn is_asking(point: Point) -> bool
    ensures { result ≡ is_asking point }
{
    match point {
        Point::Outside | Point::Leaving | Point::Found(_) => false,
        Point::Asking => true,
    }
}

/// Whether a guest has stopped or waits for an answer.
#[inline(always)]
pub fn is_held(guest: &Guest, point: Point) -> bool
    ensures { result ≡ is_some guest.now.base.stop || is_asking point }
{
    guest.stop().is_some() || is_asking(point)
}

/// One event of the guest of this number, which has not stopped and waits for no answer.
#[inline(always)]
pub fn act(
    guest: &mut Guest,
    point: &mut Point,
    quiet: &mut Quiet,
    tables: &Tables,
    fuel: u32,
    number: u32,
) -> Turned
    requires steps { point.old ≡ Outside → guest.old.waits ≡ None
        → guest.old.base.steps + 1 < 2 ^ 32 }
    requires logged { last_policy guest.old.base.log ≤ policy_in_force tables.now.tables }
    ensures seat { seat_by_parts guest.new point.new quiet.new ≡
        seat_after tables.now.tables fuel (seat_by_parts guest.old point.old quiet.old) }
    ensures turned { result ≡ turned_by number (seat_by_parts guest.new point.new quiet.new) }
{
    access(guest, point, quiet, tables, fuel);
    if is_asking(*point) {
        return Turned::Asks {
            guest: number,
            module: guest.argument(),
        };
    }
    Turned::Did
}
