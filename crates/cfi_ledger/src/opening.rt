//! The opening of a plan: its start modules, and where its guests begin.

ghost use Rattle.std.specs.Prelude.{◌≡◌, ◌≢◌, ◌<◌, ◌^◌, ℕ, IfOk, IfErr, length};
ghost use Rattle.cfi_ledger.specs.Opening.{AreOpened, AreOpeningBooks, HasOpened, IsStartRoster, IsStartFault};
ghost use Rattle.cfi_ledger.specs.Plans.{CanStart};
ghost use Rattle.cfi_ledger.specs.Roster.{IsBookOfRoster};
ghost use Rattle.cfi_ledger.specs.Starts.{AreStarted, start_fault_of};
ghost use Rattle.cfi_ledger.specs.declared.fault.OpenFault.TheVariants.{NoEntry};
ghost use Rattle.cfi_ledger.specs.declared.fault.StartFault.TheVariants.{Memory, Open};

use crate::books::Books;
use crate::copies::plan_copy;
use crate::entrant::Entrant;
use crate::entries::first_lost;
use crate::fault::{OpenFault, StartFault};
use crate::finding::nothing_found;
use crate::force::Force;
use crate::journal::Journal;
use crate::roster::Roster;
use cfi_aux::Module;
use cfi_modules::{JoinFault, loaded_have_entries};
use cfi_plan::Plan;
use cfi_policy::Book;
use cfi_values::Items;
use cfi_word::{Image, Layout};
use std::alloc::Global;

// The fault of the module of a number.
fn start_fault_of(number: usize, fault: JoinFault) -> StartFault
    requires { number < 2 ^ 32 }
    ensures { result ≡ start_fault_of number fault }
{
    match fault {
        JoinFault::Place(fault) => StartFault::Open(OpenFault::Place(number as u32, fault)),
        JoinFault::Verify(fault) => StartFault::Open(OpenFault::Verify(number as u32, fault)),
        JoinFault::Memory => StartFault::Memory,
    }
}

/// The start modules of a plan, in plan order, each placed and verified behind those before it; where a guest begins is
/// not asked.
///
/// `modules` are those of the plan, one a line.
pub fn start_modules(
    alloc: Global,
    layout: &Layout,
    plan: &Plan,
    modules: &[Module],
) -> Result<Roster, StartFault>
    requires can { CanStart plan.now modules.now }
    requires layout { layout.now ≡ plan.now.code_words }
    ensures ok { IfOk result (AreStarted plan.now modules.now (length plan.now.modules)) }
    ensures fault { IfErr result (IsStartFault plan.now modules.now) }
    ensures found { IfErr result (λ fault. (guest : ℕ) → fault ≢ Open (NoEntry guest)) }
{
    let mut roster = Roster::new(alloc, layout);
    for (number, one) in plan.modules.as_slice().iter().enumerate() {
        if one.start {
            let entrant = Entrant {
                number: number as u32,
                name: one.name.as_str(),
                policy: 0,
            };
            roster = match roster.add(&entrant, &modules[number]) {
                Ok(roster) => roster,
                Err(fault) => return Err(start_fault_of(number, fault)),
            };
        }
    }
    Ok(roster)
}

// The start modules of a plan, where each guest has somewhere to begin.
fn start_roster(
    alloc: Global,
    layout: &Layout,
    plan: &Plan,
    modules: &[Module],
) -> Result<Roster, StartFault>
    requires can { CanStart plan.now modules.now }
    requires layout { layout.now ≡ plan.now.code_words }
    ensures ok { IfOk result (IsStartRoster plan.now modules.now) }
    ensures fault { IfErr result (IsStartFault plan.now modules.now) }
{
    let roster = start_modules(alloc, layout, plan, modules)?;
    loaded_have_entries();
    if let Some(guest) = first_lost(plan, roster.modules()) {
        return Err(StartFault::Open(OpenFault::NoEntry(guest)));
    }
    Ok(roster)
}

/// The start modules of a plan, placed and verified in plan order, each against those before it, and the image of all,
/// where each guest has somewhere to begin.
///
/// `modules` are those of the plan, one a line. Faults of modules come before guests that have no entry; for a bare
/// file's plan the entry is the module's one function.
pub fn open_modules(
    alloc: Global,
    layout: &Layout,
    plan: &Plan,
    modules: &[Module],
) -> Result<(Roster, Image), StartFault>
    requires can { CanStart plan.now modules.now }
    requires layout { layout.now ≡ plan.now.code_words }
    ensures ok { IfOk result (λ pair. HasOpened plan.now modules.now pair.0 pair.1) }
    ensures fault { IfErr result (IsStartFault plan.now modules.now) }
{
    let roster = start_roster(alloc, layout, plan, modules)?;
    let image = roster.image()?;
    Ok((roster, image))
}

// The books of an opening.
fn first_books(
    alloc: Global,
    layout: Layout,
    plan: &Plan,
    modules: Items<Module>,
    roster: Roster,
    book: Book,
) -> Result<Books, StartFault>
    requires layout { layout ≡ plan.now.code_words }
    requires book { IsBookOfRoster roster book }
    ensures books { IfOk result (λ books. AreOpeningBooks plan.now modules roster books) }
    ensures fault { IfErr result (λ fault. fault ≡ Memory) }
{
    let journal = Journal::new(alloc, plan.script.as_slice())?;
    let found = nothing_found(alloc, modules.len())?;
    Ok(Books {
        plan: plan_copy(alloc, plan)?,
        modules,
        layout,
        force: Force::open(plan, roster, journal),
        book,
        found,
        starved: false,
        alloc,
    })
}

impl Books {
    /// The books of a plan before its first call, with the cells of its start modules filled. It opens as by
    /// `open_modules`, with the same faults.
    ///
    /// `modules` are those of the plan, one a line.
    pub fn open(alloc: Global, plan: &Plan, modules: Items<Module>) -> Result<Books, StartFault>
        requires { CanStart plan.now modules }
        ensures ok { IfOk result (AreOpened plan.now modules) }
        ensures fault { IfErr result (IsStartFault plan.now modules) }
    {
        let layout = Layout::new(plan.code_words).unwrap();
        let mut roster = start_roster(alloc, &layout, plan, modules.as_slice())?;
        roster.fill_cells()?;
        let book = roster.book()?;
        first_books(alloc, layout, plan, modules, roster, book)
    }
}
