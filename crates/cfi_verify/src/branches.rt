//! The slots, records and switches of checks.

ghost use Rattle.std.specs.Prelude.{◌*◌, ◌<◌, ◌^◌, ◌≤◌, length, IfSome, IfNone, IsTrue, ◌↔◌, All};
ghost use Rattle.elf_read.specs.Lists.{Each, IsFirstBreak, own_number};
ghost use Rattle.cfi_verify.specs.Branches.{NamesSlot, IsKindOf, KindFits, IsEntry, AreEntries, EntriesFit};
ghost use Rattle.cfi_verify.specs.Fault.{check_place};
ghost use Rattle.cfi_verify.specs.inner.Places.{AreRising, AreSmallChecks, AreFunctionsApart, AreInRange, IsFirstMisfit};

use crate::checks::CheckSpot;
use crate::home::is_at_home;
use cfi_aux::{Kind, Placed};
use cfi_type_table::TypeTable;
use cfi_unit::Spot;

/// The place of the first check that does not name the slot of its number.
pub fn first_misnamed(placed: &Placed, checks: &[CheckSpot]) -> Option<u32>
    requires { AreSmallChecks checks.now }
    ensures some { IfSome result (IsFirstBreak checks.now check_place (NamesSlot placed.now)) }
    ensures none { IfNone result (Each checks.now (NamesSlot placed.now)) }
{
    for (number, check) in checks.iter().enumerate() {
        if u64::from(check.slot) != u64::from(placed.slot_base) + number as u64 {
            return Some(4 * check.at);
        }
    }
    None
}

// Whether the kind of a branch is one of checks that link, or that do not.
fn is_kind_of(types: &TypeTable, link: bool, kind: &Kind) -> bool
    ensures { IsTrue result ↔ IsKindOf types.now link kind.now }
{
    match kind {
        Kind::Call(node) => link && types.is_callable(*node),
        Kind::Tail(node) => !link && types.is_callable(*node),
        Kind::Return | Kind::Switch(_) | Kind::Import { .. } => !link,
    }
}

// Whether the check of a number has a branch record that fits.
fn kind_fits(placed: &Placed, number: usize, check: CheckSpot) -> bool
    ensures { IsTrue result ↔ KindFits placed.now number check }
{
    match placed.branches.as_slice().get(number) {
        Some(kind) => is_kind_of(&placed.types, check.link, kind),
        None => false,
    }
}

/// The place of the first check without a branch record that fits; the length of the code where records are left over.
pub fn first_misfit(placed: &Placed, checks: &[CheckSpot]) -> Option<u32>
    requires words { 4 * length placed.now.words < 2 ^ 32 }
    requires small { AreSmallChecks checks.now }
    ensures some { IfSome result (IsFirstMisfit placed.now checks.now) }
    ensures none { IfNone result (Each checks.now (KindFits placed.now)) }
    ensures records { IfNone result (length placed.now.branches ≤ length checks.now) }
{
    for (number, check) in checks.iter().enumerate() {
        if !kind_fits(placed, number, *check) {
            return Some(4 * check.at);
        }
    }
    if checks.len() < placed.branches.as_slice().len() {
        return Some(4 * placed.words.as_slice().len() as u32);
    }
    None
}

// Whether an offset in bytes is that of a unit in the same function as the word `at`.
fn is_entry(placed: &Placed, spots: &[Spot], at: u32, offset: u32) -> bool
    requires order { AreFunctionsApart placed.now.functions }
    requires fits { AreInRange placed.now.functions }
    requires rising { AreRising spots.now }
    ensures { IsTrue result ↔ IsEntry placed.now spots.now at offset }
{
    if offset % 4 != 0 {
        return false;
    }
    is_at_home(
        placed.functions.as_slice(),
        spots,
        at,
        u64::from(offset / 4),
    )
}

// Whether each offset is so.
fn are_entries(placed: &Placed, spots: &[Spot], at: u32, offsets: &[u32]) -> bool
    requires order { AreFunctionsApart placed.now.functions }
    requires fits { AreInRange placed.now.functions }
    requires rising { AreRising spots.now }
    ensures { IsTrue result ↔ All (IsEntry placed.now spots.now at) offsets.now }
{
    for offset in offsets {
        if !is_entry(placed, spots, at, *offset) {
            return false;
        }
    }
    true
}

// Whether each entry of a branch, if it is a switch, is so.
fn switch_fits(placed: &Placed, spots: &[Spot], at: u32, kind: &Kind) -> bool
    requires order { AreFunctionsApart placed.now.functions }
    requires fits { AreInRange placed.now.functions }
    requires rising { AreRising spots.now }
    ensures { IsTrue result ↔ AreEntries placed.now spots.now at kind.now }
{
    match kind {
        Kind::Switch(offsets) => are_entries(placed, spots, at, offsets.as_slice()),
        Kind::Call(_) | Kind::Tail(_) | Kind::Return | Kind::Import { .. } => true,
    }
}

// Whether the entries of the branch of a check lie in its function.
fn entries_fit(placed: &Placed, spots: &[Spot], number: usize, check: CheckSpot) -> bool
    requires order { AreFunctionsApart placed.now.functions }
    requires fits { AreInRange placed.now.functions }
    requires rising { AreRising spots.now }
    ensures { IsTrue result ↔ EntriesFit placed.now spots.now number check }
{
    match placed.branches.as_slice().get(number) {
        Some(kind) => switch_fits(placed, spots, check.at, kind),
        None => true,
    }
}

/// The first branch with an entry that is no unit of its own function.
pub fn first_bad_switch(placed: &Placed, spots: &[Spot], checks: &[CheckSpot]) -> Option<u32>
    requires count { length checks.now < 2 ^ 32 }
    requires order { AreFunctionsApart placed.now.functions }
    requires fits { AreInRange placed.now.functions }
    requires rising { AreRising spots.now }
    ensures some { IfSome result
        (IsFirstBreak checks.now own_number (EntriesFit placed.now spots.now)) }
    ensures none { IfNone result (Each checks.now (EntriesFit placed.now spots.now)) }
{
    for (number, check) in checks.iter().enumerate() {
        if !entries_fit(placed, spots, number, *check) {
            return Some(number as u32);
        }
    }
    None
}
