//! The steps of a guest.

ghost use Rattle.std.specs.Prelude.{◌≡◌, ◌↔◌, ◌≤◌, ℕ, IfNone, IfSome, IsTrue, Some};
ghost use Rattle.cfi_judge.specs.Steps.{HasRun};
ghost use Rattle.cfi_judge.specs.inner.Steps.{HasCount, HasCounts, IsAlone, IsWithin};
ghost use Rattle.cfi_model.specs.Log.{pick_entries};
ghost use Rattle.cfi_model.specs.Shows.{Stands, few_of};
ghost use Rattle.cfi_unit.specs.declared.unit.Unit.{Unit as CodeUnit};
ghost use Rattle.cfi_valid.specs.Course.{Course};
ghost use Rattle.cfi_valid.specs.Parts.{FitsEndedSteps};
ghost use Rattle.cfi_valid.specs.Steps.{HasBegun, IsBegun, MeetsCheck, begun_most, is_check};

use cfi_model::Plain;
use cfi_plan::Plan;
use cfi_report::GuestPart;
use cfi_unit::laws::unit_within;
use cfi_unit::{Log, Stop, Unit, next_unit};
use cfi_word::sizes::{ACCESS_WORDS, FORBIDDEN_STEPS, RETRY_STEPS};

// How many instructions of a unit can have been run before its last one.
fn few_of(unit: Unit) -> u32
    ensures { result ≡ few_of unit }
{
    match unit {
        Unit::Plain(_) => 0,
        Unit::Load { .. } => ACCESS_WORDS as u32 - 1,
        Unit::Store { .. } => ACCESS_WORDS as u32 - 1,
        Unit::Branch { .. } => 0,
        Unit::Jump { .. } => 0,
        Unit::Check { .. } => FORBIDDEN_STEPS - 1,
        Unit::Service => 0,
    }
}

// How many of a unit that has not ended.
fn begun_most(stop: Option<Stop>, unit: Unit) -> u32
    ensures { result ≡ begun_most stop unit }
{
    match stop {
        Some(_) => few_of(unit),
        None => match unit {
            Unit::Service => 1,
            Unit::Plain(_) => 0,
            Unit::Load { .. } => few_of(unit),
            Unit::Store { .. } => few_of(unit),
            Unit::Branch { .. } => 0,
            Unit::Jump { .. } => 0,
            Unit::Check { .. } => few_of(unit),
        },
    }
}

// It is a check.
fn is_check(unit: Unit) -> bool
    ensures { result ≡ is_check unit }
{
    match unit {
        Unit::Plain(_) => false,
        Unit::Load { .. } => false,
        Unit::Store { .. } => false,
        Unit::Branch { .. } => false,
        Unit::Jump { .. } => false,
        Unit::Check { .. } => true,
        Unit::Service => false,
    }
}

// The unit that stands at an address.
fn unit_at(code: &[u32], address: u32) -> Option<Unit>
    ensures some { IfSome result (Stands code.now address) }
    ensures only { (unit : CodeUnit) → Stands code.now address unit → result ≡ Some unit }
{
    unit_within();
    if address % 4 != 0 {
        return None;
    }
    let at = address / 4;
    if at as usize > code.len() {
        return None;
    }
    match next_unit(code, at) {
        Some((unit, _)) => Some(unit),
        None => None,
    }
}

// The same, of the unit at which a guest stands.
fn begun_at(machine: &Plain, code: &[u32], stop: Option<Stop>) -> Option<u32>
    ensures some { IfSome result (λ most. (begun : ℕ) →
        IsBegun code.now stop machine.now.state begun ↔ (begun ≤ most)) }
    ensures none { IfNone result ((begun : ℕ) →
        ¬ IsBegun code.now stop machine.now.state begun) }
{
    match unit_at(code, machine.pc()) {
        Some(unit) => Some(begun_most(stop, unit)),
        None => None,
    }
}

// How many instructions can have been run of a unit that has not ended; none where the guest stands at no unit.
fn most_begun(machine: &Plain, code: &[u32], stop: Option<Stop>) -> Option<u32>
    ensures some { IfSome result (λ most. (begun : ℕ) →
        HasBegun code.now stop machine.now.state begun ↔ (begun ≤ most)) }
    ensures none { IfNone result ((begun : ℕ) →
        ¬ HasBegun code.now stop machine.now.state begun) }
{
    match stop {
        Some(Stop::Exit(_)) => Some(0),
        Some(Stop::Halt(_)) => Some(0),
        Some(Stop::Align(_)) => Some(0),
        Some(Stop::Fuel) => begun_at(machine, code, stop),
        None => begun_at(machine, code, stop),
    }
}

// A guest that has not stopped by itself stands at a check.
fn meets_check(machine: &Plain, code: &[u32]) -> bool
    ensures { IsTrue result ↔ MeetsCheck code.now machine.now.state }
{
    if machine.stop().is_some() {
        return false;
    }
    match unit_at(code, machine.pc()) {
        Some(unit) => is_check(unit),
        None => false,
    }
}

// It has picked nothing.
fn has_no_pick(log: &[Log]) -> bool
    ensures { IsTrue result ↔ (pick_entries log.now ≡ 0) }
{
    for entry in log {
        if let Log::Pick { .. } = entry {
            return false;
        }
    }
    true
}

// So many instructions are those of tries that were repeated and of a unit that has not ended; alone where no try was.
fn has_count(over: u64, most: u32, alone: bool) -> bool
    ensures { IsTrue result ↔ HasCount over most alone }
{
    if alone {
        over <= u64::from(most)
    } else {
        over % u64::from(RETRY_STEPS) <= u64::from(most)
    }
}

// No try was repeated: it says so of the epochs, or it has picked nothing and meets no check.
fn is_alone(machine: &Plain, code: &[u32], single: bool, log: &[Log]) -> bool
    ensures { IsTrue result ↔ IsAlone code.now machine.now.state single log.now }
{
    single || (has_no_pick(log) && !meets_check(machine, code))
}

// The part says so many steps as its fuel lets it.
fn is_within(fuel: u32, part: &GuestPart) -> bool
    ensures { IsTrue result ↔ IsWithin fuel part.now }
{
    match part.stop {
        Some(Stop::Fuel) => part.steps == fuel,
        Some(Stop::Exit(_)) => part.steps <= fuel,
        Some(Stop::Halt(_)) => part.steps <= fuel,
        Some(Stop::Align(_)) => part.steps <= fuel,
        None => part.steps <= fuel,
    }
}

// The steps fit the state of the machine.
fn has_counts(fuel: u32, single: bool, machine: &Plain, code: &[u32], part: &GuestPart) -> bool
    ensures { IsTrue result ↔ HasCounts fuel single code.now machine.now.state part.now }
{
    let steps = u64::from(part.steps);
    if !is_within(fuel, part) || steps < machine.steps() {
        return false;
    }
    let alone = is_alone(machine, code, single, part.log.as_slice());
    match most_begun(machine, code, part.stop) {
        Some(most) => has_count(steps - machine.steps(), most, alone),
        None => false,
    }
}

/// Whether the steps of a guest's part are as many as it can have run.
///
/// `machine` has run the units of the part over the code of all that was loaded, from the guest's entry on and over
/// exactly its log, and `epoch` is the last one of the course.
pub fn has_steps(plan: &Plan, epoch: u32, machine: &Plain, code: &[u32], part: &GuestPart) -> bool
    ensures { (c : Course) → HasRun plan.now epoch code.now machine.now.state c part.now →
        IsTrue result ↔ FitsEndedSteps c part.now }
{
    has_counts(plan.fuel, epoch == plan.first, machine, code, part)
}
