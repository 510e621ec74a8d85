//! Whole simulations.

ghost use Rattle.std.specs.Prelude.{◌≡◌, ◌<◌, ◌^◌, [], All, IfOk, IfErr, OnOk, length};
ghost use Rattle.cfi_plan.specs.Plan.{IsPlan};
ghost use Rattle.cfi_modules.specs.Series.{CanBeTaken};
ghost use Rattle.cfi_sim.specs.Fault.{IsSimFault};
ghost use Rattle.cfi_sim.specs.Schedule.{PassesNoLimit, LineMakes};
ghost use Rattle.cfi_sim.specs.Valid.{IsValidSim};
ghost use Rattle.cfi_sim.specs.inner.Following.{FollowsTo, IsLineFault, IsScheduleFault};
ghost use Rattle.cfi_sim.specs.inner.Making.{HasMadeWithin};
ghost use Rattle.cfi_sim.specs.inner.Standing.{IsUnderWay};

use crate::fault::SimFault;
use crate::opening::open;
use crate::report::SimReport;
use crate::standing::Standing;
use cfi_aux::Module;
use cfi_plan::Plan;
use cfi_text::Lines;
use cfi_values::Items;
use std::alloc::Global;

// Makes what a line says, or tells that it is a bad one.
fn follow_line(standing: &mut Standing<'_>, number: u32, text: &[u8]) -> Result<(), SimFault>
    requires under_way { IsUnderWay standing.old }
    requires within { PassesNoLimit standing.old.stage }
    ensures ok { OnOk result
        (HasMadeWithin (LineMakes standing.old.plan standing.old.modules text.now)
        standing.old standing.new) }
    ensures fault { IfErr result (IsLineFault standing.old number text.now) }
{
    let Some(line) = standing.read(text) else {
        return Err(SimFault::BadEvent(number));
    };
    let made = standing.make_line(line)?;
    if !made {
        return Err(SimFault::BadEvent(number));
    }
    Ok(())
}

// Makes the lines of a schedule, one after the other, as far as they lead.
fn follow(standing: &mut Standing<'_>, schedule: &[u8]) -> Result<(), SimFault>
    requires under_way { IsUnderWay standing.old }
    requires within { PassesNoLimit standing.old.stage }
    requires short { length schedule.now < 2 ^ 32 }
    ensures ok { OnOk result (FollowsTo schedule.now [] standing.old standing.new) }
    ensures fault { IfErr result (IsScheduleFault standing.old schedule.now) }
{
    for (number, text) in Lines::new(schedule) {
        match follow_line(standing, number, text) {
            Ok(()) => {}
            Err(fault) => return Err(fault),
        }
    }
    Ok(())
}

/// What a schedule makes of a plan and its modules: a valid simulation.
///
/// `modules` are those of the plan, one a line. The plan's script is not run. The faults come in this order: a start
/// module that does not join those before it, a guest without an entry, the first line of the schedule that is none,
/// names what is not there, passes a limit, or lacks an event that it asks for.
pub fn simulate(
    alloc: Global,
    plan: &Plan,
    modules: Items<Module>,
    schedule: &[u8],
) -> Result<SimReport, SimFault>
    requires plan { IsPlan plan.now }
    requires count { length modules ≡ length plan.now.modules }
    requires taken { All CanBeTaken modules }
    requires short { length schedule.now < 2 ^ 32 }
    ensures ok { IfOk result (IsValidSim plan.now modules schedule.now) }
    ensures fault { IfErr result (IsSimFault plan.now modules schedule.now) }
{
    let mut standing = match open(alloc, plan, modules.as_slice()) {
        Ok(standing) => standing,
        Err(fault) => return Err(fault),
    };
    match follow(&mut standing, schedule) {
        Ok(()) => {}
        Err(fault) => return Err(fault),
    }
    let report = standing.into_report(alloc)?;
    Ok(report)
}
