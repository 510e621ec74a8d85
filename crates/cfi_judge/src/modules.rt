//! The modules.

ghost use Rattle.std.specs.Prelude.{◌≡◌, ◌↔◌, ℕ, List, [], IfOk, IsTrue, length};
ghost use Rattle.cfi_judge.specs.Modules.{HasSomeModules};
ghost use Rattle.cfi_judge.specs.declared.entries.Change.TheVariants as changes;
ghost use Rattle.cfi_judge.specs.inner.Followed.{Comes};
ghost use Rattle.cfi_judge.specs.inner.Next.{IsNext};
ghost use Rattle.cfi_judge.specs.inner.Told.{Follow, changes_in};
ghost use Rattle.cfi_ledger.specs.Plans.{CanStart};
ghost use Rattle.cfi_ledger.specs.Starts.{AreStarted};
ghost use Rattle.cfi_valid.specs.Loaded.{LoadedModule};

use crate::entries::{Change, Update, change_of};
use crate::next::Next;
use cfi_aux::Module;
use cfi_ledger::Roster;
use cfi_plan::{Entry, ModuleLine, Plan};
use cfi_report::Report;
use std::alloc::{AllocError, Global};

// The lines say the same.
fn is_line(line: &ModuleLine, other: &ModuleLine) -> bool
    ensures { IsTrue result ↔ (line.now ≡ other.now) }
{
    line == other
}

// All do, one by one.
fn are_lines(lines: &[ModuleLine], others: &[ModuleLine]) -> bool
    ensures { IsTrue result ↔ (lines.now ≡ others.now) }
{
    if lines.len() != others.len() {
        return false;
    }
    for number in 0..lines.len() {
        if !is_line(&lines[number], &others[number]) {
            return false;
        }
    }
    true
}

// How far the lines of a report's modules follow those of its journal.
#[derive(Drop)]
struct Followed {
    // Where the next module goes.
    next: Next,
    // The place of its line.
    at: usize,
}

impl Followed {
    // With one module more. `None` where it does not stand there, or has no line.
    fn load(
        self,
        plan: &Plan,
        modules: &[Module],
        lines: &[ModuleLine],
        load: Update,
    ) -> Result<Option<Followed>, AllocError>
        requires can { CanStart plan.now modules.now }
        requires next { (before : List LoadedModule) × (gone : List ℕ)
            × IsNext plan.now.code_words (length modules.now) before gone self.next }
        ensures { (before : List LoadedModule) (gone : List ℕ) →
            IsNext plan.now.code_words (length modules.now) before gone self.next →
            IfOk result (Comes plan.now modules.now before gone
            (changes.Module load) lines.now self) }
    {
        if self.at >= lines.len() {
            return Ok(None);
        }
        let taken = self.next.take(plan, modules, &lines[self.at], load)?;
        match taken {
            Some(next) => Ok(Some(Followed {
                next,
                at: self.at + 1,
            })),
            None => Ok(None),
        }
    }

    // With what a line changes. `None` where a module does not stand there, or has no line.
    fn go(
        self,
        plan: &Plan,
        modules: &[Module],
        lines: &[ModuleLine],
        change: Change,
    ) -> Result<Option<Followed>, AllocError>
        requires can { CanStart plan.now modules.now }
        requires next { (before : List LoadedModule) × (gone : List ℕ)
            × IsNext plan.now.code_words (length modules.now) before gone self.next }
        ensures { (before : List LoadedModule) (gone : List ℕ) →
            IsNext plan.now.code_words (length modules.now) before gone self.next →
            IfOk result (Comes plan.now modules.now before gone change lines.now self) }
    {
        match change {
            Change::Module(load) => self.load(plan, modules, lines, load),
            Change::Retirement(retirement) => Ok(Some(Followed {
                next: self.next.leave(retirement.number)?,
                at: self.at,
            })),
            Change::Epoch(_) => Ok(Some(self)),
            Change::Nothing => Ok(Some(self)),
        }
    }
}

// The modules that the journal tells of follow those before the start, each with its line. The first that does not ends
// it.
fn follow(
    plan: &Plan,
    modules: &[Module],
    start: Next,
    lines: &[ModuleLine],
    journal: &[Entry],
) -> Result<bool, AllocError>
    requires can { CanStart plan.now modules.now }
    requires next { (before : List LoadedModule)
        × IsNext plan.now.code_words (length modules.now) before [] start }
    ensures { (before : List LoadedModule) →
        IsNext plan.now.code_words (length modules.now) before [] start →
        IfOk result (λ is. IsTrue is
        ↔ Follow plan.now modules.now before [] (changes_in journal.now) lines.now) }
{
    let mut followed = Followed { next: start, at: 0 };
    for entry in journal {
        followed = match followed.go(plan, modules, lines, change_of(entry.what))? {
            Some(followed) => followed,
            None => return Ok(false),
        };
    }
    Ok(followed.at >= lines.len())
}

/// Whether a report has the modules that its plan and its journal tell of, each at the next free place, with the names
/// of those that the lines before do not say were retired; whether the lines of the journal are legal is not asked.
///
/// `starts` has the start modules of the plan, and `modules` are those of the plan, one a line. Nothing is placed
/// behind a module that its line does not fit; those behind the start modules are not verified. The names are
/// gathered anew for each module of the plan that is retired, once.
pub fn has_modules(
    alloc: Global,
    plan: &Plan,
    modules: &[Module],
    starts: &Roster,
    report: &Report,
) -> Result<bool, AllocError>
    requires can { CanStart plan.now modules.now }
    requires started { AreStarted plan.now modules.now (length plan.now.modules) starts.now }
    ensures { IfOk result (λ is. IsTrue is ↔ HasSomeModules plan.now modules.now report.now) }
{
    let lines = report.modules.as_slice();
    let count = starts.lines().len();
    if lines.len() < count {
        return Ok(false);
    }
    if !are_lines(&lines[..count], starts.lines()) {
        return Ok(false);
    }
    let next = Next::behind(alloc, plan.code_words, modules.len(), starts)?;
    follow(
        plan,
        modules,
        next,
        &lines[count..],
        report.journal.as_slice(),
    )
}
