//! What a unit has done, as text.

ghost use Rattle.std.specs.Prelude.{◌≡◌, ◌++◌, OnOk, slice_index};
ghost use Rattle.cfi_sim.specs.Step.{arrow_text, change_text, changes_text, entry_text, log_text, stop_text};
ghost use Rattle.cfi_sim.specs.Step.{did_text};
ghost use Rattle.cfi_unit.specs.declared.unit.TheConstants.{FREE_REGISTERS};

use crate::seen::{Seen, last_of, picks_in};
use cfi_text::{put_dec, put_hex8};
use cfi_unit::{FREE_REGISTERS, Log, Stop};
use rv_guest::Guest;
use std::alloc::AllocError;

/// Appends why a guest has stopped, if it has.
pub fn put_stop(out: &mut Vec<u8>, stop: Option<Stop>) -> Result<(), AllocError>
    ensures { OnOk result (out.new.items ≡ out.old.items ++ stop_text stop) }
{
    match stop {
        None => Ok(()),
        Some(Stop::Exit(code)) => {
            out.extend_from_slice(b" exit ")?;
            put_dec(out, u64::from(code))
        }
        Some(Stop::Halt(target)) => {
            out.extend_from_slice(b" halt ")?;
            put_hex8(out, target)
        }
        Some(Stop::Align(address)) => {
            out.extend_from_slice(b" align ")?;
            put_hex8(out, address)
        }
        Some(Stop::Fuel) => out.extend_from_slice(b" fuel"),
    }
}

// Appends an entry of a log.
fn put_log(out: &mut Vec<u8>, entry: Option<Log>) -> Result<(), AllocError>
    ensures { OnOk result (out.new.items ≡ out.old.items ++ log_text entry) }
{
    match entry {
        None => Ok(()),
        Some(Log::Pick { policy, .. }) => {
            out.extend_from_slice(b" pick ")?;
            put_dec(out, u64::from(policy))
        }
        Some(
            Log::Open {
                module,
                address,
                policy,
            },
        ) => {
            out.extend_from_slice(b" open ")?;
            put_dec(out, u64::from(module))?;
            out.push(b' ')?;
            put_hex8(out, address)?;
            out.push(b' ')?;
            put_dec(out, u64::from(policy))
        }
        Some(Log::Cause { module, cause }) => {
            out.extend_from_slice(b" open ")?;
            put_dec(out, u64::from(module))?;
            out.extend_from_slice(b" cause ")?;
            put_dec(out, u64::from(cause))
        }
    }
}

// Appends what was logged.
fn put_entry(out: &mut Vec<u8>, old: &Seen, log: &[Log]) -> Result<(), AllocError>
    ensures { OnOk result (out.new.items ≡ out.old.items ++ entry_text old.now log.now) }
{
    let last = last_of(log);
    if log.len() == old.logged && picks_in(last) == old.picks {
        return Ok(());
    }
    put_log(out, last)
}

// Appends where a guest goes on, where that is not the next address.
fn put_arrow(out: &mut Vec<u8>, stop: Option<Stop>, next: u32, pc: u32) -> Result<(), AllocError>
    ensures { OnOk result (out.new.items ≡ out.old.items ++ arrow_text stop next pc) }
{
    if stop.is_some() || pc == next {
        return Ok(());
    }
    out.extend_from_slice(b" -> ")?;
    put_hex8(out, pc)
}

// What a register held, 0 past the last one.
fn held(old: &Seen, k: u32) -> u32
    ensures { result ≡ slice_index old.now.registers k }
{
    match old.registers.as_slice().get(k as usize) {
        Some(value) => *value,
        None => 0,
    }
}

// Appends a register that has changed.
fn put_change(out: &mut Vec<u8>, k: u32, before: u32, value: u32) -> Result<(), AllocError>
    ensures { OnOk result (out.new.items ≡ out.old.items ++ change_text k before value) }
{
    if before == value {
        return Ok(());
    }
    out.extend_from_slice(b" x")?;
    put_dec(out, u64::from(k))?;
    out.push(b'=')?;
    put_hex8(out, value)
}

// Appends the registers that have changed, of x0 to x27.
fn put_changes(out: &mut Vec<u8>, old: &Seen, new: &Guest) -> Result<(), AllocError>
    ensures { OnOk result
        (out.new.items ≡ out.old.items ++ changes_text old.now new.now FREE_REGISTERS) }
{
    for k in 0..FREE_REGISTERS {
        put_change(out, k, held(old, k), new.register(k))?;
    }
    Ok(())
}

/// Appends what a unit has done: what it has logged, where the guest goes on, if that is not `next`, and registers.
#[tactic(auto, unfolding(crate::specs::Step::did_text))]
pub fn put_did(out: &mut Vec<u8>, old: &Seen, new: &Guest, next: u32) -> Result<(), AllocError>
    ensures { OnOk result (out.new.items ≡ out.old.items ++ did_text old.now new.now next) }
{
    put_entry(out, old, new.log())?;
    put_arrow(out, new.stop(), next, new.pc())?;
    put_changes(out, old, new)
}
