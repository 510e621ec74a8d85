//! Whether a machine has ended as a part says.

ghost use Rattle.std.specs.Prelude.{◌≡◌, ◌↔◌, IsTrue};
ghost use Rattle.cfi_replay.specs.inner.Ended.{HasEnd};
ghost use Rattle.cfi_valid.specs.Course.{Course};
ghost use Rattle.cfi_valid.specs.Loaded.{Filled};
ghost use Rattle.cfi_valid.specs.Parts.{ComesTo, HasEndedReplay};
ghost use Rattle.cfi_valid.specs.Replay.{shown_stop};

use cfi_model::Plain;
use cfi_report::GuestPart;
use cfi_unit::{Log, Stop};

// A stop by the fuel, and none, is shown as none.
fn shown_stop(stop: Option<Stop>) -> Option<Stop>
    ensures { result ≡ shown_stop stop }
{
    match stop {
        Some(Stop::Exit(code)) => Some(Stop::Exit(code)),
        Some(Stop::Halt(target)) => Some(Stop::Halt(target)),
        Some(Stop::Align(address)) => Some(Stop::Align(address)),
        Some(Stop::Fuel) => None,
        None => None,
    }
}

// The bytes that were put are the same.
fn is_output(bytes: &[u8], others: &[u8]) -> bool
    ensures { IsTrue result ↔ (bytes.now ≡ others.now) }
{
    bytes == others
}

// The entries say the same.
fn is_entry(entry: &Log, other: &Log) -> bool
    ensures { IsTrue result ↔ (entry.now ≡ other.now) }
{
    entry == other
}

// All do, one by one.
fn is_log(entries: &[Log], others: &[Log]) -> bool
    ensures { IsTrue result ↔ (entries.now ≡ others.now) }
{
    if entries.len() != others.len() {
        return false;
    }
    for number in 0..entries.len() {
        if !is_entry(&entries[number], &others[number]) {
            return false;
        }
    }
    true
}

// Both say the same of why a guest stopped.
fn is_stop(stop: Option<Stop>, other: Option<Stop>) -> bool
    ensures { IsTrue result ↔ (stop ≡ other) }
{
    stop == other
}

// The machine has what the part says.
fn has_end(machine: &Plain, part: &GuestPart) -> bool
    ensures { IsTrue result ↔ HasEnd machine.now.state part.now }
{
    is_output(machine.output(), part.out.as_slice())
        && is_log(machine.log(), part.log.as_slice())
        && is_stop(machine.stop(), shown_stop(part.stop))
}

/// Whether the machine to which the units of a part come has ended as the part says, which says why it stopped.
pub fn has_ended(machine: &Plain, part: &GuestPart) -> bool
    ensures { (c : Course) → ComesTo Filled c part.now machine.now.state →
        IsTrue result ↔ HasEndedReplay c part.now }
{
    part.stop.is_some() && has_end(machine, part)
}
