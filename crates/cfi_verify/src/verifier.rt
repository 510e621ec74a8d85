//! The verifier.

ghost use Rattle.std.specs.Prelude.{◌≡◌, ◌≢◌, List, [], ◌*◌, ◌<◌, ◌^◌, length, OnOk, IfErr};
ghost use Rattle.std.specs.List.Sorted.{IsNonDecreasing};
ghost use Rattle.cfi_aux.specs.declared.placed.Placed.{Placed as Module};
ghost use Rattle.cfi_verify.specs.Spots.{checks_of};
ghost use Rattle.cfi_unit.specs.Spots.{AreSpots};
ghost use Rattle.cfi_verify.specs.inner.Places.{AreEntriesOf};
ghost use Rattle.cfi_verify.specs.Fault.{Verifies, IsVerified, IsVerifiedAs, IsLaidOut, IsFault, IsFirstFault};

use crate::branches::{first_bad_switch, first_misfit, first_misnamed};
use crate::checks::{CheckSpot, checks_of};
use crate::entries::entries_of;
use crate::fault::VerifyFault;
use crate::functions::{first_open, first_unfit};
use crate::reader::units_of;
use crate::target::first_stray;
use cfi_aux::Placed;
use cfi_unit::Spot;
use std::alloc::Global;

// The first fault of the slots and functions of a module whose units are read.
fn check_layout(new: &Placed, spots: &[Spot], checks: &[CheckSpot]) -> Result<(), VerifyFault>
    requires words { 4 * length new.now.words < 2 ^ 32 }
    requires functions { length new.now.functions < 2 ^ 32 }
    requires some { new.now.words ≢ [] }
    requires units { AreSpots new.now.words spots.now }
    requires checks { checks.now ≡ checks_of spots.now }
    ensures ok { OnOk result (IsLaidOut new.now spots.now) }
    ensures fault { (loaded : List Module) → IfErr result (IsFirstFault new.now loaded) }
{
    if let Some(place) = first_misnamed(new, checks) {
        return Err(VerifyFault::Slot(place));
    }
    if let Some(number) = first_unfit(new, spots) {
        return Err(VerifyFault::Functions(number));
    }
    if let Some(number) = first_open(new.functions.as_slice(), spots) {
        return Err(VerifyFault::FallsThrough(number));
    }
    Ok(())
}

// The first fault of the jumps and branches of a module that is laid out.
fn check_flow(
    new: &Placed,
    spots: &[Spot],
    checks: &[CheckSpot],
    entries: &[u64],
) -> Result<(), VerifyFault>
    requires words { 4 * length new.now.words < 2 ^ 32 }
    requires laid { IsLaidOut new.now spots.now }
    requires checks { checks.now ≡ checks_of spots.now }
    requires sorted { IsNonDecreasing entries.now }
    ensures ok { (loaded : List Module) → AreEntriesOf new.now loaded entries.now →
        OnOk result (IsVerifiedAs new.now loaded spots.now) }
    ensures fault { (loaded : List Module) → AreEntriesOf new.now loaded entries.now →
        IfErr result (IsFirstFault new.now loaded) }
{
    if let Some(place) = first_stray(new, spots, entries) {
        return Err(VerifyFault::Target(place));
    }
    if let Some(place) = first_misfit(new, checks) {
        return Err(VerifyFault::Kinds(place));
    }
    if let Some(number) = first_bad_switch(new, spots, checks) {
        return Err(VerifyFault::Switch(number));
    }
    Ok(())
}

/// Whether a module at its place may join those loaded: Ok exactly where no fault stands against it, else the first.
///
/// The first fault is the one of the first kind, in the order of `VerifyFault`, and of those the one of the least
/// place. The units are read once; what is loaded is looked at for the first words of its functions alone.
pub fn verify(alloc: Global, new: &Placed, loaded: &[Placed]) -> Result<(), VerifyFault>
    requires words { 4 * length new.now.words < 2 ^ 32 }
    requires functions { length new.now.functions < 2 ^ 32 }
    ensures ok { OnOk result (Verifies new.now loaded.now) }
    ensures sound { OnOk result (IsVerified new.now loaded.now) }
    ensures fault { IfErr result (IsFault new.now loaded.now) }
{
    let words = new.words.as_slice();
    if words.is_empty() {
        return Err(VerifyFault::Empty);
    }
    let spots = units_of(alloc, words)?;
    let checks = checks_of(alloc, &spots)?;
    check_layout(new, &spots, &checks)?;
    let entries = entries_of(alloc, new, loaded)?;
    check_flow(new, &spots, &checks, &entries)
}
