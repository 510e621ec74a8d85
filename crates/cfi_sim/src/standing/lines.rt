// Lines of a schedule.

ghost use Rattle.std.specs.Prelude.{◌≡◌, IfOk, IfSome, Some};
ghost use Rattle.cfi_sim.specs.Line.{IsKnown, Says};
ghost use Rattle.cfi_sim.specs.Events.{IsGuestEvent, IsReleaseEvent, IsUpdateEvent};
ghost use Rattle.cfi_sim.specs.Schedule.{IsWholeUpdate, PassesNoLimit, Makes, Repeats};
ghost use Rattle.cfi_sim.specs.declared.line.Line.{Line as LineValue};
ghost use Rattle.cfi_sim.specs.inner.Making.{MakesBy};
ghost use Rattle.cfi_sim.specs.inner.Standing.{IsUnderWay};
ghost use Rattle.cfi_text.specs.Lines.{statement_of};
ghost use Rattle.cfi_text.specs.Words.{words_in};

use crate::limits::MAX_EVENTS;
use crate::line::{Line, read_line};
use crate::opens::is_idle;
use crate::standing::Standing;
use cfi_text::statement;
use std::alloc::AllocError;

impl<'a> Standing<'a> {
    // So many events of a guest. False where it has fewer, or a limit would be passed.
    fn go_on(&mut self, guest: u32, count: u32) -> bool
        requires under_way { IsUnderWay self.old }
        requires within { PassesNoLimit self.old.stage }
        ensures { MakesBy (Repeats (IsGuestEvent self.old.plan guest) count) self.old self.new
            result }
    {
        for _turn in 0..count {
            if self.events >= MAX_EVENTS {
                return false;
            }
            let went = self.go(guest);
            if !went {
                return false;
            }
        }
        true
    }

    // So many accesses of the updater. False where there are fewer, or a limit would be passed.
    fn advance_by(&mut self, count: u32) -> Result<bool, AllocError>
        requires under_way { IsUnderWay self.old }
        requires within { PassesNoLimit self.old.stage }
        ensures { IfOk result
            (MakesBy (Repeats (IsUpdateEvent self.old.plan self.old.modules) count) self.old
            self.new) }
    {
        for _access in 0..count {
            let made = self.advance()?;
            if !made {
                return Ok(false);
            }
        }
        Ok(true)
    }

    // All accesses that are left of an update, none where none is under way. False where a limit would be passed.
    fn finish(&mut self) -> Result<bool, AllocError>
        requires under_way { IsUnderWay self.old }
        requires within { PassesNoLimit self.old.stage }
        ensures { IfOk result
            (MakesBy (IsWholeUpdate self.old.plan self.old.modules) self.old self.new) }
    {
        while !is_idle(self.world.phase()) {
            let made = self.advance()?;
            if !made {
                return Ok(false);
            }
        }
        Ok(true)
    }

    // Releases a guest. False where there is nothing to be released, or a limit would be passed.
    fn let_go(&mut self, guest: u32) -> bool
        requires under_way { IsUnderWay self.old }
        ensures { MakesBy (IsReleaseEvent guest) self.old self.new result }
    {
        if self.events >= MAX_EVENTS {
            return false;
        }
        let released = self.release(guest);
        released
    }

    /// The line that a text says, by the plan.
    pub(crate) fn read(&self, text: &[u8]) -> Option<Line>
        requires { IsUnderWay self.now }
        ensures some { IfSome result (Says self.now.plan (words_in (statement_of text.now))) }
        ensures only { (line : LineValue) →
            Says self.now.plan (words_in (statement_of text.now)) line → result ≡ Some line }
        ensures known { IfSome result (IsKnown self.now.plan) }
    {
        read_line(self.plan, statement(text))
    }

    /// Makes what a line says. False where that makes nothing, or a limit would be passed.
    pub(crate) fn make_line(&mut self, line: Line) -> Result<bool, AllocError>
        requires under_way { IsUnderWay self.old }
        requires within { PassesNoLimit self.old.stage }
        requires known { IsKnown self.old.plan line }
        ensures { IfOk result
            (MakesBy (Makes self.old.plan self.old.modules line) self.old self.new) }
    {
        match line {
            Line::Blank => Ok(true),
            Line::Guest { guest, count } => Ok(self.go_on(guest, count)),
            Line::Load(number) => self.load(number),
            Line::Refresh => self.refresh(),
            Line::Update(count) => self.advance_by(count),
            Line::UpdateAll => self.finish(),
            Line::Release(guest) => Ok(self.let_go(guest)),
        }
    }
}
