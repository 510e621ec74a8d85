//! What a report says of a guest.

ghost use Rattle.std.specs.Prelude.{◌≡◌, ◌<◌, [], ◌∷◌, ◌++◌, IfOk, OnOk};
ghost use Rattle.std.specs.List.{AllByRecursion};
ghost use Rattle.cfi_guest_part.specs.Part.{part_of, IsEntry, HasFields};

use cfi_report::GuestPart;
use cfi_unit::Log;
use cfi_values::{Bytes, Items, Text};
use rv_guest::Guest;
use std::alloc::{AllocError, Global};

// Adds an entry, whose numbers have 32 bits each.
#[tactic(auto, using(crate::proofs::PushLemmas::entries_push))]
fn add_entry(log: &mut Vec<Log>, entry: Log) -> Result<(), AllocError>
    requires fields { AllByRecursion IsEntry log.old.items }
    ensures same { OnOk result (log.new.items ≡ log.old.items ++ entry ∷ []) }
    ensures fields { OnOk result (AllByRecursion IsEntry log.new.items) }
{
    log.push(entry)?;
    Ok(())
}

// A log, entry by entry.
fn log_of(alloc: Global, log: &[Log]) -> Result<Vec<Log>, AllocError>
    ensures same { IfOk result (λ copy. copy.items ≡ log.now) }
    ensures fields { IfOk result (λ copy. AllByRecursion IsEntry copy.items) }
{
    let mut copy = Vec::with_capacity(alloc, log.len())?;
    for entry in log {
        add_entry(&mut copy, *entry)?;
    }
    Ok(copy)
}

// An output, byte by byte.
#[tactic(auto, using(crate::proofs::PushLemmas::bytes_push))]
fn out_of(alloc: Global, out: &[u8]) -> Result<Vec<u8>, AllocError>
    ensures same { IfOk result (λ copy. copy.items ≡ out.now) }
    ensures fields { IfOk result (λ copy. AllByRecursion (λ byte. byte < 256) copy.items) }
{
    let mut copy = Vec::new(alloc);
    for byte in out {
        copy.push(*byte)?;
    }
    Ok(copy)
}

/// What a report says of a guest of this number and this entry.
pub fn part_of(
    alloc: Global,
    number: u32,
    entry: &str,
    guest: &Guest,
) -> Result<GuestPart, AllocError>
    ensures says { IfOk result (λ part. part ≡ part_of number entry.now guest.now) }
    ensures fields { IfOk result HasFields }
{
    Ok(GuestPart {
        number,
        entry: Text::from_string(String::from_str(alloc, entry)?),
        log: Items::from_vec(log_of(alloc, guest.log())?),
        out: Bytes::from_vec(out_of(alloc, guest.output())?),
        stop: guest.stop(),
        units: guest.units(),
        steps: guest.steps(),
    })
}
