// Events of guests, told.

ghost use Rattle.std.specs.Prelude.{◌≡◌, ◌++◌, ◌<◌, IfOk, OnOk, option_map, slice_get};
ghost use Rattle.cfi_model.specs.World.{point_of};
ghost use Rattle.cfi_sim.specs.Line.{IsKnown};
ghost use Rattle.cfi_sim.specs.Schedule.{PassesNoLimit};
ghost use Rattle.cfi_sim.specs.Trace.{told_of};
ghost use Rattle.cfi_sim.specs.declared.limits.TheConstants.{MAX_EVENTS};
ghost use Rattle.cfi_sim.specs.inner.Standing.{IsUnderWay};
ghost use Rattle.cfi_sim.specs.inner.Tracing.{TellManyBy, TellsBy, TellsLineBy};
ghost use Rattle.cfi_sim.specs.Step.{seen_of};

use crate::limits::MAX_EVENTS;
use crate::line::Line;
use crate::seen::{Seen, see};
use crate::standing::Standing;
use crate::step::put_step;
use cfi_world::World;
use std::alloc::{AllocError, Global};

// What a trace keeps of a guest of this number, if there is one.
fn seen_in(alloc: Global, world: &World, guest: u32) -> Result<Option<Seen>, AllocError>
    ensures { IfOk result (λ seen.
        seen ≡ option_map (seen_of (point_of world.now guest)) (slice_get world.now.guests guest)) }
{
    match world.guests().get(guest as usize) {
        Some(one) => Ok(Some(see(alloc, world.point(guest), one)?)),
        None => Ok(None),
    }
}

// Appends what is told of an event of a guest.
fn put_event(
    out: &mut Vec<u8>,
    world: &World,
    guest: u32,
    old: Option<Seen>,
) -> Result<(), AllocError>
    ensures { OnOk result (out.new.items ≡ out.old.items
        ++ told_of world.now.tables guest old (slice_get world.now.guests guest)) }
{
    let Some(old) = old else {
        return Ok(());
    };
    match world.guests().get(guest as usize) {
        Some(new) => put_step(out, world, guest, &old, new),
        None => Ok(()),
    }
}

impl<'a> Standing<'a> {
    // An event of a guest, which is told. False where it has none.
    fn tell_event(
        &mut self,
        alloc: Global,
        guest: u32,
        out: &mut Vec<u8>,
    ) -> Result<bool, AllocError>
        requires under_way { IsUnderWay self.old }
        requires few { self.old.stage.events < MAX_EVENTS }
        ensures { IfOk result
            (TellsBy guest self.old out.old.items self.new out.new.items) }
    {
        let old = seen_in(alloc, &self.world, guest)?;
        let went = self.go(guest);
        if went {
            put_event(out, &self.world, guest, old)?;
        }
        Ok(went)
    }

    // So many events of a guest, which are told. False where it has fewer, or a limit would be passed.
    fn tell_events(
        &mut self,
        alloc: Global,
        guest: u32,
        count: u32,
        out: &mut Vec<u8>,
    ) -> Result<bool, AllocError>
        requires under_way { IsUnderWay self.old }
        requires within { PassesNoLimit self.old.stage }
        ensures { IfOk result
            (TellManyBy guest count self.old out.old.items self.new out.new.items) }
    {
        for _turn in 0..count {
            if self.events >= MAX_EVENTS {
                return Ok(false);
            }
            let told = self.tell_event(alloc, guest, out)?;
            if !told {
                return Ok(false);
            }
        }
        Ok(true)
    }

    /// Makes what a line says, and tells what of it is told. False where that makes nothing, or a limit would be
    /// passed.
    pub(crate) fn tell_line(
        &mut self,
        alloc: Global,
        line: Line,
        out: &mut Vec<u8>,
    ) -> Result<bool, AllocError>
        requires under_way { IsUnderWay self.old }
        requires within { PassesNoLimit self.old.stage }
        requires known { IsKnown self.old.plan line }
        ensures { IfOk result
            (TellsLineBy line self.old out.old.items self.new out.new.items) }
    {
        if let Line::Guest { guest, count } = line {
            return self.tell_events(alloc, guest, count, out);
        }
        self.make_line(line)
    }
}
