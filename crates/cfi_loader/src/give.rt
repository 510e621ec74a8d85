//! The answer to an open of a module that is live.

ghost use Rattle.std.specs.Prelude.{◌≡◌, ◌≤◌, ◌<◌, ◌++◌, Some, drop};
ghost use Rattle.cfi_model.specs.Log.{last_policy, opens};
ghost use Rattle.cfi_model.specs.Run.{serve_of};
ghost use Rattle.cfi_model.specs.Service.{argument};
ghost use Rattle.cfi_model.specs.declared.act.Wait.TheVariants as waits;
ghost use Rattle.cfi_modules.specs.Fills.{fills_of};
ghost use Rattle.cfi_valid.specs.Journal.{live_in};
ghost use Rattle.cfi_valid.specs.Replay.{given_by};
ghost use Rattle.cfi_word.specs.declared.limits.TheConstants.{MAX_OPENS};
ghost use Rattle.cfi_word.specs.declared.services.TheConstants.{OPEN};
ghost use Rattle.cfi_loader.specs.Passes.{reply_with};
ghost use Rattle.cfi_ledger.specs.Force.{count_by_policy};
ghost use Rattle.cfi_ledger.specs.Opens.{IsAddressOf};

use crate::loaded::Loaded;
use crate::loader::{Loader, LoaderName};
use cfi_ledger::{Force, open_answer};
use cfi_unit::{Fill, Log};
use rv_guest::Guest;

// What a guest with this log is due: the data that it lacks, and all cells.
fn due<'a>(force: &'a Force, log: &[Log]) -> &'a [Fill]
    ensures { result.now ≡ drop (count_by_policy (given_by log.now) force.now.roster)
        (fills_of force.now.roster.placed) ++ force.now.roster.cells }
{
    let first = force.due_from(log).min(force.roster.data().len());
    &force.roster.fills()[first..]
}

impl<N: LoaderName> Loader<N> {
    /// Answers an open, and copies the data due, that of all loaded modules which the guest lacks, in load order, and
    /// then the cells; for a module without a Global function the cause `NO_FUNCTION`, and none of it. It takes no memory.
    ///
    /// The guest waits in an open, has fewer than `MAX_OPENS` opens logged and no policy above the one in force.
    /// `loaded` has the address of the module that a0 names.
    pub fn give(&self, guest: &mut Guest, loaded: &Loaded)
        requires waits { guest.old.waits ≡ Some (waits.Service OPEN) }
        requires few { opens guest.old.base.log < MAX_OPENS }
        requires rises { last_policy guest.old.base.log ≤ self.now.course.end.policy }
        requires address { IsAddressOf (live_in self.now.course.end)
            (argument guest.old.base) loaded.now.address }
        ensures { guest.new ≡ serve_of guest.old
            (reply_with self.now guest.old.base.log loaded.now.address) }
    {
        let force = &self.books.force;
        let fills = due(force, guest.log());
        guest.answer(&open_answer(loaded.address, force.policy, fills, 0));
    }
}
