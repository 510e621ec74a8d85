//! Where branches and jumps lead.

ghost use Rattle.std.specs.Prelude.{◌≡◌, ℕ, List, ◌<◌, ◌^◌, Some, IfSome, IfNone, IsTrue, ◌↔◌};
ghost use Rattle.std.specs.List.Sorted.{IsNonDecreasing};
ghost use Rattle.cfi_aux.specs.declared.placed.Placed.{Placed as Module};
ghost use Rattle.elf_read.specs.Lists.{Each, IsFirstBreak};
ghost use Rattle.cfi_verify.specs.Fault.{unit_place};
ghost use Rattle.cfi_verify.specs.Target.{LeadsTo, LeadsHome, LeadsToEntry, MayLead, LeadsWell};
ghost use Rattle.cfi_verify.specs.inner.Places.{AreRising, AreSmall, AreFunctionsApart, AreInRange, AreEntriesOf};

use crate::entries::is_entry;
use crate::home::is_at_home;
use cfi_aux::Placed;
use cfi_unit::{Spot, Unit};

// The word that an offset leads to, where it leads to one.
fn target_of(at: u64, off: i32) -> Option<u64>
    requires { at < 2 ^ 33 }
    ensures some { IfSome result (LeadsTo at off) }
    ensures only { (to : ℕ) → LeadsTo at off to → result ≡ Some to }
{
    let place = 4 * at as i64 + i64::from(off);
    if place < 0 || place % 4 != 0 {
        return None;
    }
    Some((place / 4) as u64)
}

// Whether an offset leads to a unit of the same function.
fn leads_home(placed: &Placed, spots: &[Spot], at: u32, off: i32) -> bool
    requires order { AreFunctionsApart placed.now.functions }
    requires fits { AreInRange placed.now.functions }
    requires rising { AreRising spots.now }
    ensures { IsTrue result ↔ LeadsHome placed.now spots.now at off }
{
    match target_of(u64::from(at), off) {
        Some(to) => is_at_home(placed.functions.as_slice(), spots, at, to),
        None => false,
    }
}

// Whether an offset leads to the first word of a function.
fn leads_to_entry(placed: &Placed, entries: &[u64], at: u32, off: i32) -> bool
    requires { IsNonDecreasing entries.now }
    ensures { (loaded : List Module) →
        AreEntriesOf placed.now loaded entries.now →
        (IsTrue result ↔ LeadsToEntry placed.now loaded at off) }
{
    match target_of(u64::from(placed.base) + u64::from(at), off) {
        Some(to) => is_entry(entries, to),
        None => false,
    }
}

// Whether a unit leads where it may.
fn may_lead(placed: &Placed, spots: &[Spot], entries: &[u64], spot: Spot) -> bool
    requires order { AreFunctionsApart placed.now.functions }
    requires fits { AreInRange placed.now.functions }
    requires rising { AreRising spots.now }
    requires sorted { IsNonDecreasing entries.now }
    ensures { (loaded : List Module) →
        AreEntriesOf placed.now loaded entries.now →
        (IsTrue result ↔ MayLead placed.now loaded spots.now spot.at spot.unit) }
{
    let at = spot.at;
    match spot.unit {
        Unit::Branch { off, .. } => leads_home(placed, spots, at, off),
        Unit::Jump { link: true, off } => leads_to_entry(placed, entries, at, off),
        Unit::Jump { link: false, off } => {
            leads_home(placed, spots, at, off) || leads_to_entry(placed, entries, at, off)
        }
        Unit::Plain(_) | Unit::Service => true,
        Unit::Load { .. } | Unit::Store { .. } | Unit::Check { .. } => true,
    }
}

/// The place of the first unit that leads where it may not.
///
/// `entries` are the first words of the functions of this module and of those loaded, sorted.
pub fn first_stray(placed: &Placed, spots: &[Spot], entries: &[u64]) -> Option<u32>
    requires order { AreFunctionsApart placed.now.functions }
    requires fits { AreInRange placed.now.functions }
    requires rising { AreRising spots.now }
    requires small { AreSmall spots.now }
    requires sorted { IsNonDecreasing entries.now }
    ensures some { (loaded : List Module) →
        AreEntriesOf placed.now loaded entries.now →
        IfSome result (IsFirstBreak spots.now unit_place (LeadsWell placed.now loaded spots.now)) }
    ensures none { (loaded : List Module) →
        AreEntriesOf placed.now loaded entries.now →
        IfNone result (Each spots.now (LeadsWell placed.now loaded spots.now)) }
{
    for spot in spots {
        if !may_lead(placed, spots, entries, *spot) {
            return Some(4 * spot.at);
        }
    }
    None
}
