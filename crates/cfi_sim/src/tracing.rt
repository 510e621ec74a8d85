//! Whole simulations, told event by event.

ghost use Rattle.std.specs.Prelude.{◌≡◌, ◌++◌, ◌<◌, ◌^◌, [], All, IfOk, IfErr, OnOk, length};
ghost use Rattle.cfi_plan.specs.Plan.{IsPlan};
ghost use Rattle.cfi_modules.specs.Series.{CanBeTaken};
ghost use Rattle.cfi_sim.specs.Fault.{IsSimFault};
ghost use Rattle.cfi_sim.specs.Schedule.{PassesNoLimit};
ghost use Rattle.cfi_sim.specs.Trace.{IsTrace, LineTells, heading_text, named_text};
ghost use Rattle.cfi_sim.specs.inner.Following.{IsLineFault, IsScheduleFault};
ghost use Rattle.cfi_sim.specs.inner.Standing.{IsUnderWay};
ghost use Rattle.cfi_sim.specs.inner.Tracing.{HasTold, TracesTo};

use crate::fault::SimFault;
use crate::line::Line;
use crate::opening::open;
use crate::standing::Standing;
use cfi_aux::Module;
use cfi_plan::Plan;
use cfi_text::{Lines, put_dec, statement, unblanked};
use cfi_values::Items;
use std::alloc::{AllocError, Global};

// Appends a line that has a word, with its number.
fn put_named(out: &mut Vec<u8>, number: u32, statement: &[u8]) -> Result<(), AllocError>
    ensures { OnOk result (out.new.items ≡ out.old.items ++ named_text number statement.now) }
{
    out.extend_from_slice(b"line ")?;
    put_dec(out, u64::from(number))?;
    out.push(b' ')?;
    out.extend_from_slice(unblanked(statement))?;
    out.push(b'\n')?;
    Ok(())
}

// Appends a line, where it has a word.
fn put_heading(
    out: &mut Vec<u8>,
    number: u32,
    statement: &[u8],
    line: Line,
) -> Result<(), AllocError>
    ensures { OnOk result
        (out.new.items ≡ out.old.items ++ heading_text number statement.now line) }
{
    match line {
        Line::Blank => Ok(()),
        Line::Guest { .. }
        | Line::Load(_)
        | Line::Refresh
        | Line::Update(_)
        | Line::UpdateAll
        | Line::Release(_) => put_named(out, number, statement),
    }
}

// Makes what a line says and tells it, or tells that it is a bad one.
fn tell_line(
    alloc: Global,
    standing: &mut Standing<'_>,
    number: u32,
    text: &[u8],
    out: &mut Vec<u8>,
) -> Result<(), SimFault>
    requires under_way { IsUnderWay standing.old }
    requires within { PassesNoLimit standing.old.stage }
    ensures ok { OnOk result
        (HasTold (LineTells standing.old.plan standing.old.modules number text.now)
        standing.old out.old.items standing.new out.new.items) }
    ensures fault { IfErr result (IsLineFault standing.old number text.now) }
{
    let Some(line) = standing.read(text) else {
        return Err(SimFault::BadEvent(number));
    };
    put_heading(out, number, statement(text), line)?;
    let made = standing.tell_line(alloc, line, out)?;
    if !made {
        return Err(SimFault::BadEvent(number));
    }
    Ok(())
}

// Tells the lines of a schedule, one after the other, as far as they lead.
fn tell_lines(
    alloc: Global,
    standing: &mut Standing<'_>,
    schedule: &[u8],
    out: &mut Vec<u8>,
) -> Result<(), SimFault>
    requires under_way { IsUnderWay standing.old }
    requires within { PassesNoLimit standing.old.stage }
    requires short { length schedule.now < 2 ^ 32 }
    ensures ok { OnOk result
        (TracesTo schedule.now [] standing.old out.old.items standing.new out.new.items) }
    ensures fault { IfErr result (IsScheduleFault standing.old schedule.now) }
{
    for (number, text) in Lines::new(schedule) {
        match tell_line(alloc, standing, number, text, out) {
            Ok(()) => {}
            Err(fault) => return Err(fault),
        }
    }
    Ok(())
}

/// What is told of a schedule of a plan and its modules: its lines, and each event of its guests.
///
/// It is the trace of the simulation that `simulate` makes of the same plan, modules and schedule, and where there is
/// none, the fault is the same.
pub fn trace(
    alloc: Global,
    plan: &Plan,
    modules: Items<Module>,
    schedule: &[u8],
) -> Result<Vec<u8>, SimFault>
    requires plan { IsPlan plan.now }
    requires count { length modules ≡ length plan.now.modules }
    requires taken { All CanBeTaken modules }
    requires short { length schedule.now < 2 ^ 32 }
    ensures ok { IfOk result (λ text. IsTrace plan.now modules schedule.now text.items) }
    ensures fault { IfErr result (IsSimFault plan.now modules schedule.now) }
{
    let mut standing = match open(alloc, plan, modules.as_slice()) {
        Ok(standing) => standing,
        Err(fault) => return Err(fault),
    };
    let mut out = Vec::new(alloc);
    match tell_lines(alloc, &mut standing, schedule, &mut out) {
        Ok(()) => {}
        Err(fault) => return Err(fault),
    }
    Ok(out)
}
