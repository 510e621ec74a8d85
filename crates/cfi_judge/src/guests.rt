//! The guests.

ghost use Rattle.std.specs.Prelude.{◌≡◌, ◌↔◌, All, IsTrue, Some, slice_get};
ghost use Rattle.cfi_modules.specs.Entry.{HasAddresses};
ghost use Rattle.cfi_valid.specs.Course.{Course};
ghost use Rattle.cfi_valid.specs.Valid.{HasGuests};
ghost use Rattle.cfi_judge.specs.Guests.{HasStarts};
ghost use Rattle.cfi_judge.specs.inner.Guests.{IsGuest, AreGuests};

use cfi_aux::Placed;
use cfi_ledger::entry_at;
use cfi_plan::Plan;
use cfi_report::{GuestPart, Report};
use cfi_values::Text;

// A guest of the plan has this number and this entry.
fn is_planned(plan: &Plan, number: usize, entry: &Text) -> bool
    ensures { IsTrue result ↔ (slice_get plan.now.guests number ≡ Some entry.now) }
{
    match plan.guests.as_slice().get(number) {
        Some(planned) => planned.as_str() == entry.as_str(),
        None => false,
    }
}

// The part is that of the plan's guest of this number, which has somewhere to begin.
fn is_guest(plan: &Plan, starts: &[Placed], number: usize, part: &GuestPart) -> bool
    requires { All HasAddresses starts.now }
    ensures { IsTrue result ↔ IsGuest plan.now starts.now number part.now }
{
    if part.number as usize != number {
        return false;
    }
    if !is_planned(plan, number, &part.entry) {
        return false;
    }
    entry_at(plan, starts, part.entry.as_str()).is_some()
}

// Each part is that of the plan's guest of its place.
fn are_guests(plan: &Plan, starts: &[Placed], parts: &[GuestPart]) -> bool
    requires { All HasAddresses starts.now }
    ensures { IsTrue result ↔ AreGuests plan.now starts.now parts.now }
{
    for (number, part) in parts.iter().enumerate() {
        if !is_guest(plan, starts, number, part) {
            return false;
        }
    }
    true
}

/// Whether the guests are those of the plan, in its order, each with somewhere to begin.
///
/// `starts` are the start modules, as they are placed in the course that the report tells.
pub fn has_guests(plan: &Plan, starts: &[Placed], report: &Report) -> bool
    requires { All HasAddresses starts.now }
    ensures { (c : Course) → HasStarts plan.now starts.now c →
        IsTrue result ↔ HasGuests c report.now }
{
    if report.guests.len() != plan.guests.len() {
        return false;
    }
    are_guests(plan, starts, report.guests.as_slice())
}
