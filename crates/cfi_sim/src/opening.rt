//! The opening of a plan: its start modules, and its guests at their entries.

ghost use Rattle.std.specs.Prelude.{◌≡◌, ◌≤◌, All, IfOk, IfErr, length};
ghost use Rattle.cfi_ledger.specs.Entries.{AllEnter};
ghost use Rattle.cfi_model.specs.Data.{LiesInData};
ghost use Rattle.cfi_plan.specs.Plan.{IsPlan};
ghost use Rattle.cfi_modules.specs.Entry.{HasAddresses};
ghost use Rattle.cfi_modules.specs.Series.{CanBeTaken};
ghost use Rattle.cfi_sim.specs.inner.Opening.{AreGuestsIn, IsOpened, IsOpeningFault};
ghost use Rattle.cfi_word.specs.declared.limits.TheConstants.{GUESTS};

use crate::fault::SimFault;
use crate::limits::MAX_UPDATES;
use crate::standing::Standing;
use cfi_aux::{Module, Placed};
use cfi_ledger::{StartFault, entry_at, open_modules};
use cfi_modules::{loaded_have_entries, series_are_closed_below};
use cfi_plan::Plan;
use cfi_unit::Fill;
use cfi_word::Layout;
use cfi_world::World;
use rv_guest::Guest;
use std::alloc::{AllocError, Global};

// The guests of a plan, each at its entry.
fn open_guests(
    alloc: Global,
    plan: &Plan,
    starts: &[Placed],
    fills: &[Fill],
) -> Result<Vec<Guest>, AllocError>
    requires few { length plan.now.guests ≤ GUESTS }
    requires addresses { All HasAddresses starts.now }
    requires inside { All LiesInData fills.now }
    requires enter { AllEnter plan.now starts.now }
    ensures { IfOk result (λ guests.
        AreGuestsIn plan.now starts.now fills.now (length plan.now.guests) guests.items) }
{
    let mut guests = Vec::new(alloc);
    for (number, entry) in plan.guests.as_slice().iter().enumerate() {
        let address = entry_at(plan, starts, entry.as_str()).unwrap();
        guests.push(Guest::open(alloc, number as u32, address, fills)?)?;
    }
    Ok(guests)
}

/// The simulation before the first line: the start modules are placed and verified in plan order, each against those
/// before it, and the guests stand at their entries.
///
/// Faults of modules come before guests that have no entry.
pub(crate) fn open<'a>(
    alloc: Global,
    plan: &'a Plan,
    modules: &'a [Module],
) -> Result<Standing<'a>, SimFault>
    requires plan { IsPlan plan.now }
    requires count { length modules.now ≡ length plan.now.modules }
    requires taken { All CanBeTaken modules.now }
    ensures ok { IfOk result (IsOpened plan.now modules.now) }
    ensures fault { IfErr result (IsOpeningFault plan.now modules.now) }
{
    let layout = Layout::new(plan.code_words).unwrap();
    let (roster, image) = match open_modules(alloc, &layout, plan, modules) {
        Ok((roster, image)) => (roster, image),
        Err(StartFault::Open(fault)) => return Err(SimFault::Open(fault)),
        Err(StartFault::Memory) => return Err(SimFault::Memory),
    };
    loaded_have_entries();
    series_are_closed_below();
    let guests = open_guests(alloc, plan, roster.modules(), roster.data())?;
    let world = World::open(
        alloc,
        layout,
        plan.versions,
        plan.first,
        image,
        guests,
        MAX_UPDATES,
        plan.fuel,
    )?;
    Ok(Standing::new(alloc, plan, modules, world, roster))
}
