//! The line of an event.

ghost use Rattle.std.specs.Prelude.{◌≡◌, ◌++◌, ◌+◌, ◌^◌, ◌<◌, [], IfSome, OnOk, OnErr};
ghost use Rattle.rv_insn.specs.Insn.{InRange};
ghost use Rattle.cfi_sim.specs.Step.{ended_text, fetched_text, insn_at, insn_text, inside_text, unit_text};
ghost use Rattle.cfi_sim.specs.Step.{bary_line, epoch_text, left_line, quiet_text, service_text, step_by, step_text};
ghost use Rattle.cfi_sim.specs.Step.{tary_line};

use crate::did::put_did;
use crate::seen::Seen;
use crate::span::{Span, plain_of, span_of};
use crate::step_line::{put_left, put_line};
use crate::word::{put_bary, put_epoch, put_quiet, put_tary};
use cfi_model::Point;
use cfi_unit::Stop;
use cfi_world::World;
use rv_guest::{Guest, Wait};
use rv_insn::{Insn, decode};
use rv_text::print;
use std::alloc::AllocError;

// The instruction at an address of the code.
fn insn_at(world: &World, address: u32) -> Option<Insn>
    ensures insn { result ≡ insn_at world.now.tables address }
    ensures range { IfSome result InRange }
{
    decode(world.code(address / 4))
}

// Appends an instruction.
fn put_insn(out: &mut Vec<u8>, insn: Option<Insn>) -> Result<(), AllocError>
    requires { IfSome insn InRange }
    ensures { OnOk result (out.new.items ≡ out.old.items ++ insn_text insn) }
{
    match insn {
        None => Ok(()),
        Some(insn) => print(&insn, out),
    }
}

// Appends the line of a unit that has ended.
#[tactic(auto, unfolding(crate::specs::Step::ended_text, crate::specs::Step::unit_text))]
fn put_ended(
    out: &mut Vec<u8>,
    world: &World,
    guest: u32,
    old: &Seen,
    new: &Guest,
    span: Span,
) -> Result<(), AllocError>
    ensures { OnOk result (out.new.items ≡ out.old.items
        ++ ended_text world.now.tables guest old.now new.now span) }
{
    let address = old.pc.saturating_sub(span.before);
    let first = insn_at(world, address);
    let last = insn_at(world, old.pc.wrapping_add(span.after));
    let mut what = Vec::new(*out.allocator());
    put_insn(&mut what, plain_of(first, last))?;
    let mut did = Vec::new(*out.allocator());
    put_did(&mut did, old, new, old.pc.wrapping_add(4))?;
    put_line(out, guest, old, address, &what, did, new.stop())
}

// Appends the line of an instruction that has stopped the guest inside a unit, or none.
#[tactic(auto, unfolding(crate::specs::Step::inside_text))]
fn put_inside(
    out: &mut Vec<u8>,
    world: &World,
    guest: u32,
    old: &Seen,
    stop: Option<Stop>,
) -> Result<(), AllocError>
    ensures { OnOk result (out.new.items ≡ out.old.items
        ++ inside_text world.now.tables guest old.now stop) }
{
    if stop.is_none() {
        return Ok(());
    }
    let mut what = Vec::new(*out.allocator());
    put_insn(&mut what, insn_at(world, old.pc))?;
    let did = Vec::new(*out.allocator());
    put_line(out, guest, old, old.pc, &what, did, stop)
}

// Appends the line of an instruction that was fetched.
#[tactic(auto, unfolding(crate::specs::Step::fetched_text))]
fn put_fetched(
    out: &mut Vec<u8>,
    world: &World,
    guest: u32,
    old: &Seen,
    new: &Guest,
) -> Result<(), AllocError>
    ensures { OnOk result (out.new.items ≡ out.old.items
        ++ fetched_text world.now.tables guest old.now new.now) }
{
    if new.units() != old.units {
        let span = span_of(insn_at(world, old.pc));
        return put_ended(out, world, guest, old, new, span);
    }
    if new.pc() >= old.pc {
        return put_inside(out, world, guest, old, new.stop());
    }
    let did = Vec::new(*out.allocator());
    let address = old.pc.saturating_sub(44);
    put_line(out, guest, old, address, b"again", did, new.stop())
}

// Appends the line of a service whose work is done.
#[tactic(auto, unfolding(crate::specs::Step::service_text))]
fn put_service(out: &mut Vec<u8>, guest: u32, old: &Seen, new: &Guest) -> Result<(), AllocError>
    ensures { OnOk result
        (out.new.items ≡ out.old.items ++ service_text guest old.now new.now) }
{
    if new.units() == old.units {
        return Ok(());
    }
    let mut did = Vec::new(*out.allocator());
    put_did(&mut did, old, new, old.pc)?;
    let address = old.pc.saturating_sub(4);
    put_line(out, guest, old, address, b"ecall", did, new.stop())
}

// Appends the line of a slot's word that has come.
#[tactic(auto, unfolding(crate::specs::Step::bary_line))]
fn put_bary_line(
    out: &mut Vec<u8>,
    world: &World,
    guest: u32,
    old: &Seen,
    slot: u32,
    stop: Option<Stop>,
) -> Result<(), AllocError>
    ensures { OnOk result (out.new.items ≡ out.old.items
        ++ bary_line world.now.tables guest old.now slot stop) }
{
    let mut what = Vec::new(*out.allocator());
    put_bary(&mut what, slot, world.bary(slot))?;
    let did = Vec::new(*out.allocator());
    let address = old.pc.saturating_sub(20);
    put_line(out, guest, old, address, &what, did, stop)
}

// Appends the line of a target's word that has come.
#[tactic(auto, unfolding(crate::specs::Step::tary_line))]
fn put_tary_line(
    out: &mut Vec<u8>,
    world: &World,
    guest: u32,
    old: &Seen,
    at: u32,
    stop: Option<Stop>,
) -> Result<(), AllocError>
    ensures { OnOk result (out.new.items ≡ out.old.items
        ++ tary_line world.now.tables guest old.now at stop) }
{
    let mut what = Vec::new(*out.allocator());
    put_tary(&mut what, at, world.tary(at))?;
    let did = Vec::new(*out.allocator());
    let address = old.pc.saturating_sub(32);
    put_line(out, guest, old, address, &what, did, stop)
}

// Appends the line of the load of EPOCH.
fn put_epoch_line(
    out: &mut Vec<u8>,
    world: &World,
    guest: u32,
    old: &Seen,
    stop: Option<Stop>,
) -> Result<(), AllocError>
    ensures { OnOk result (out.new.items ≡ out.old.items
        ++ left_line guest old.now (epoch_text world.now.tables) stop) }
{
    let mut what = Vec::new(*out.allocator());
    put_epoch(&mut what, world)?;
    put_left(out, guest, old, &what, stop)
}

// Appends the line of an epoch that is published.
fn put_quiet_line(
    out: &mut Vec<u8>,
    guest: u32,
    old: &Seen,
    epoch: u32,
    stop: Option<Stop>,
) -> Result<(), AllocError>
    ensures { OnOk result (out.new.items ≡ out.old.items
        ++ left_line guest old.now (quiet_text epoch) stop) }
{
    let mut what = Vec::new(*out.allocator());
    put_quiet(&mut what, epoch)?;
    put_left(out, guest, old, &what, stop)
}

// Appends what a trace tells of an event outside services.
fn put_outside(
    out: &mut Vec<u8>,
    world: &World,
    guest: u32,
    old: &Seen,
    new: &Guest,
) -> Result<(), AllocError>
    ensures { OnOk result (out.new.items ≡ out.old.items
        ++ step_by old.now.waits world.now.tables guest old.now new.now) }
{
    match old.waits {
        None => put_fetched(out, world, guest, old, new),
        Some(Wait::Service(_)) => put_service(out, guest, old, new),
        Some(Wait::Bary { slot, .. }) => { put_bary_line(out, world, guest, old, slot, new.stop()) }
        Some(Wait::Tary { at, .. }) => put_tary_line(out, world, guest, old, at, new.stop()),
    }
}

// Appends what a trace tells of an event of a guest, and where no memory is left perhaps not all.
fn put_event(
    out: &mut Vec<u8>,
    world: &World,
    guest: u32,
    old: &Seen,
    new: &Guest,
) -> Result<(), AllocError>
    ensures { OnOk result (out.new.items ≡ out.old.items
        ++ step_text world.now.tables guest old.now new.now) }
{
    match old.point {
        Point::Outside => put_outside(out, world, guest, old, new),
        Point::Asking => Ok(()),
        Point::Leaving => put_epoch_line(out, world, guest, old, new.stop()),
        Point::Found(epoch) => put_quiet_line(out, guest, old, epoch, new.stop()),
    }
}

/// Appends what a trace tells of an event of a guest: a line, or nothing.
///
/// `old` is the guest before the event, `new` after it, and `world` the world after it. Where no memory is left,
/// nothing is appended.
pub fn put_step(
    out: &mut Vec<u8>,
    world: &World,
    guest: u32,
    old: &Seen,
    new: &Guest,
) -> Result<(), AllocError>
    ensures ok { OnOk result (out.new.items ≡ out.old.items
        ++ step_text world.now.tables guest old.now new.now) }
    ensures err { OnErr result (out.new.items ≡ out.old.items) }
{
    let mut line = Vec::new(*out.allocator());
    put_event(&mut line, world, guest, old, new)?;
    out.extend_from_slice(&line)
}
