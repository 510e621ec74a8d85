//! What a loader tells.

ghost use Rattle.std.specs.Prelude.{◌≡◌, ℕ, Some, IfSome, IfNone, map, option_map, slice_get};
ghost use Rattle.cfi_modules.specs.Fills.{fills_of};
ghost use Rattle.cfi_valid.specs.Guests.{GuestBegins};
ghost use Rattle.cfi_valid.specs.Journal.{members_of};
ghost use Rattle.cfi_valid.specs.Loaded.{placed_modules, module_line_of, with_cells, Filled};
ghost use Rattle.cfi_valid.specs.Script.{made_by_script, script_calls};
ghost use Rattle.cfi_ledger.specs.Calls.{call_due};
ghost use Rattle.cfi_loader.specs.Ledger.{IsLedger};

use crate::loader::{Loader, LoaderName};
use cfi_aux::Module;
use cfi_ledger::{Books, Due, entry_at};
use cfi_modules::loaded_have_entries;
use cfi_plan::{Entry, ModuleLine, Plan};
use cfi_tables::Seen;
use cfi_unit::Fill;
use cfi_values::Items;

impl<N: LoaderName> Loader<N> {
    /// The journal: a line for each load, each refresh and each retirement, but those that found no memory.
    ///
    /// `law`: what the loader keeps at every moment.
    pub fn journal(&self) -> &[Entry]
        ensures value { result.now ≡ self.now.course.journal }
        ensures law { IsLedger N.key N.plan N.modules self.now }
    {
        self.books.force.journal.lines()
    }

    /// The epoch and the policy in force.
    pub fn force(&self) -> Seen
        ensures epoch { result.epoch ≡ self.now.course.end.epoch }
        ensures policy { result.policy ≡ self.now.course.end.policy }
    {
        Seen {
            epoch: self.books.force.epoch,
            policy: self.books.force.policy,
        }
    }

    /// The plan.
    ///
    /// `law`: what the loader keeps at every moment.
    pub fn plan(&self) -> &Plan
        ensures value { result.now ≡ N.plan }
        ensures law { IsLedger N.key N.plan N.modules self.now }
    {
        &self.books.plan
    }

    /// What a report says of each loaded module, in load order.
    pub fn modules(&self) -> &[ModuleLine]
        ensures { result.now ≡ map (module_line_of N.plan.modules) self.now.course.end.loaded }
    {
        self.books.force.roster.lines()
    }

    /// The data of the loaded modules, in load order, and then the cells at the policy in force.
    pub fn fills(&self) -> &[Fill]
        ensures { let end = self.now.course.end in result.now
            ≡ with_cells Filled end.policy (members_of end) (fills_of (placed_modules end.loaded)) }
    {
        self.books.force.roster.fills()
    }

    /// Whether memory was missing for a load or a retirement.
    pub fn starved(&self) -> bool
        ensures { result ≡ self.now.starved }
    {
        self.books.starved
    }

    /// The script's next call; a line `refresh N` is N calls. None exactly where every line was made.
    ///
    /// `law`: what the loader keeps at every moment.
    pub fn due(&self) -> Option<Due>
        ensures next { option_map call_due result ≡ slice_get self.now.left 0 }
        ensures none { IfNone result
            (made_by_script self.now.course.journal ≡ script_calls N.plan.script) }
        ensures law { IsLedger N.key N.plan N.modules self.now }
    {
        self.books.force.journal.due()
    }

    /// Where a guest of this entry begins: at the Global function of this name in the first start module that has one,
    /// and for a bare file's plan at its module's first word.
    pub fn entry(&self, name: &str) -> Option<u32>
        ensures some { IfSome result (GuestBegins N.plan self.now.course.end.loaded name.now) }
        ensures only { (address : ℕ)
            → GuestBegins N.plan self.now.course.end.loaded name.now address →
            result ≡ Some address }
    {
        loaded_have_entries();
        let starts = &self.books.force.roster.modules()[..self.books.force.starts()];
        entry_at(&self.books.plan, starts, name)
    }

    /// The plan and its modules, as `Start::new` took them. It takes no memory.
    pub fn parts(self) -> (Plan, Items<Module>)
        ensures plan { result.0 ≡ N.plan }
        ensures modules { result.1 ≡ N.modules }
    {
        let Loader { books, .. } = self;
        let Books { plan, modules, .. } = books;
        (plan, modules)
    }
}
