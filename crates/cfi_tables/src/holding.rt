//! The steps by which the keeper holds a pass: it goes out, is told of what the keeper has seen, or comes back.

ghost use Rattle.std.specs.Prelude.{◌≡◌, ◌+◌, ◌≤◌, ◌<◌, length, slice_index, false};
ghost use Rattle.cfi_word.specs.declared.limits.TheConstants.{GUESTS};
ghost use Rattle.cfi_tables.specs.Faults.{epoch_after};
ghost use Rattle.cfi_tables.specs.Keeping.{heard_of, is_out, let_in, let_out};
ghost use Rattle.cfi_tables.specs.Rule.{AgreesWith};
ghost use Rattle.cfi_tables.specs.Views.{admitted, idle_view, noted};
ghost use Rattle.cfi_tables.specs.inner.Stores.{IsAt, keeping_at};

use crate::blank::Place;
use crate::rule::{Clear, Leave, Register, Return, TableName, Tell, Vacate};
use crate::tables::{Pass, Tables};
use cfi_word::EPOCH;
use std::marker::{Model, PhantomData};
use std::mem;

/// The pass of a guest that is not out: the guest is registered at the epoch before this one.
pub fn register<N: TableName>(
    tables: &Tables<N>,
    seat: &mut Place,
    guest: u32,
    next: u32,
) -> Pass<N>
    requires guest { guest < GUESTS }
    requires free { is_out (keeping_at seat.old.me).out guest ≡ false }
    requires next { next ≡ epoch_after N.key (keeping_at seat.old.me) }
    requires some { 1 ≤ length (keeping_at seat.old.me).entries }
    requires seat { IsAt N.table seat.old.table_id seat.old.id seat.old.me
        (idle_view N.key (keeping_at seat.old.me)) }
    ensures pass { result ≡ admitted N.key (keeping_at seat.old.me) guest }
    ensures seat { IsAt N.table seat.new.table_id seat.new.id seat.new.me
        (idle_view N.key (let_out N.key guest (keeping_at seat.old.me))) }
{
    let number = tables.layout.quiet(guest);
    tables
        .words
        .shared
        .store::<Register<N>>(seat, number as usize, u64::from(next));
    let seat = tables.words.shared.split_seat::<Leave>(seat);
    Pass {
        seat,
        guest,
        of: PhantomData,
    }
}

/// Tells a pass all that the keeper has seen. The keeper then knows what its guest has published.
pub fn tell<N: TableName>(tables: &Tables<N>, seat: &mut Place, pass: &mut Pass<N>)
    requires seat { IsAt N.table seat.old.table_id seat.old.id seat.old.me
        (idle_view N.key (keeping_at seat.old.me)) }
    ensures pass { pass.new ≡ noted N.key (keeping_at seat.old.me) pass.old }
    ensures agrees { let keeping = keeping_at seat.old.me in
        AgreesWith N.key keeping.entries keeping.refusals pass.old.sight }
    ensures heard { slice_index (keeping_at seat.old.me).quiets.heard pass.old.guest
        ≤ pass.old.quiet + 1 }
    ensures seat { IsAt N.table seat.new.table_id seat.new.id seat.new.me
        (idle_view N.key (heard_of pass.old.guest pass.old.quiet (keeping_at seat.old.me))) }
{
    let shared = &tables.words.shared;
    let vacant = shared.split_seat::<Vacate>(seat);
    let place = mem::replace(&mut pass.seat, vacant);
    shared.join_seat::<Return>(seat, place);
    let _ = shared.load::<Tell<N>>(seat, EPOCH as usize);
    pass.seat = shared.split_seat::<Leave>(seat);
}

/// Takes a pass back, whose guest is registered no more.
pub fn clear<N: TableName>(tables: &Tables<N>, seat: &mut Place, pass: Pass<N>)
    requires seat { IsAt N.table seat.old.table_id seat.old.id seat.old.me
        (idle_view N.key (keeping_at seat.old.me)) }
    ensures agrees { let keeping = keeping_at seat.old.me in
        AgreesWith N.key keeping.entries keeping.refusals pass.sight }
    ensures heard { slice_index (keeping_at seat.old.me).quiets.heard pass.guest ≤ pass.quiet + 1 }
    ensures seat { IsAt N.table seat.new.table_id seat.new.id seat.new.me
        (idle_view N.key (let_in pass.guest (keeping_at seat.old.me))) }
{
    let Pass {
        seat: place,
        guest,
        of: _,
    } = pass;
    tables.words.shared.join_seat::<Return>(seat, place);
    let number = tables.layout.quiet(guest);
    tables
        .words
        .shared
        .store::<Clear<N>>(seat, number as usize, 0);
}
