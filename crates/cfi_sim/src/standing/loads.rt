// Loads.

ghost use Rattle.std.specs.Prelude.{◌<◌, IfOk, length};
ghost use Rattle.cfi_sim.specs.Events.{IsLoadEvent};
ghost use Rattle.cfi_sim.specs.Schedule.{PassesNoLimit};
ghost use Rattle.cfi_sim.specs.inner.Making.{MakesBy};
ghost use Rattle.cfi_sim.specs.inner.Standing.{IsUnderWay};
ghost use Rattle.cfi_valid.specs.Loaded.{IsLoaded};
ghost use Rattle.cfi_valid.specs.declared.limits.TheConstants.{MAX_LOADED};

use crate::pending::Pending;
use crate::standing::Standing;
use cfi_ledger::{Prospect, join_line};
use cfi_plan::JournalLine;
use std::alloc::AllocError;

impl<'a> Standing<'a> {
    // Loads a module that is not loaded, where there is room for it.
    fn join(&mut self, number: u32) -> Result<bool, AllocError>
        requires under_way { IsUnderWay self.old }
        requires within { PassesNoLimit self.old.stage }
        requires known { number < length self.old.plan.modules }
        requires absent { IsLoaded self.old.stage.state.loaded number → ⊥ }
        requires room { length self.old.stage.state.loaded < MAX_LOADED }
        ensures { IfOk result
            (MakesBy (IsLoadEvent self.old.plan self.old.modules number) self.old self.new) }
    {
        let (plan, modules) = (self.plan, self.modules);
        let entrant = self.force.entrant(plan, number);
        match self.force.roster.offer(&entrant, &modules[number as usize]) {
            Ok((offer, image)) => {
                let spent = JournalLine::LoadEpochs { module: number };
                let begun = self.begin(Pending::Load(offer), spent, Some(image))?;
                Ok(begun)
            }
            Err(fault) => {
                let Some(line) = join_line(number, &fault) else {
                    return Err(AllocError);
                };
                self.tell(line)?;
                Ok(true)
            }
        }
    }

    /// Begins the load of the module of this number, or tells why it does not. False where an update is under way, or
    /// a limit would be passed.
    ///
    /// A load that is refused before its update is told at once, by the modules that are loaded, and is no event.
    pub(super) fn load(&mut self, number: u32) -> Result<bool, AllocError>
        requires under_way { IsUnderWay self.old }
        requires within { PassesNoLimit self.old.stage }
        requires known { number < length self.old.plan.modules }
        ensures { IfOk result
            (MakesBy (IsLoadEvent self.old.plan self.old.modules number) self.old self.new) }
    {
        match self.force.roster.prospect(number) {
            // None is retired here.
            Prospect::Again(_) | Prospect::Retired(_) => {
                let policy = self.force.policy;
                self.tell(JournalLine::LoadAgain {
                    module: number,
                    policy,
                })?;
                Ok(true)
            }
            Prospect::Full => {
                self.tell(JournalLine::LoadFull { module: number })?;
                Ok(true)
            }
            Prospect::Open => self.join(number),
        }
    }
}
