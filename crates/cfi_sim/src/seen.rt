//! What a trace keeps of a guest from before an event.

ghost use Rattle.std.specs.Prelude.{◌≡◌, IfOk};
ghost use Rattle.cfi_model.specs.Log.{last_of, last_picks, picks_in};
ghost use Rattle.cfi_sim.specs.Step.{first_registers, seen_of};
ghost use Rattle.cfi_unit.specs.declared.unit.TheConstants.{FREE_REGISTERS};

use cfi_model::Point;
use cfi_unit::{FREE_REGISTERS, Log};
use cfi_values::Numbers;
use rv_guest::{Guest, Wait};
use std::alloc::{AllocError, Global};

/// A guest before an event.
#[derive(Debug, Drop)]
pub struct Seen {
    /// How far it was in a service.
    pub point: Point,
    /// The address of the next instruction.
    pub pc: u32,
    /// How many units were run.
    pub units: u32,
    /// What it waited for.
    pub waits: Option<Wait>,
    /// How many entries the log had.
    pub logged: usize,
    /// How many picks its last entry counted.
    pub picks: u32,
    /// What x0 to x27 held.
    pub registers: Numbers,
}

/// The last entry of a log.
pub fn last_of(log: &[Log]) -> Option<Log>
    ensures { result ≡ last_of log.now }
{
    if log.is_empty() {
        return None;
    }
    Some(log[log.len() - 1])
}

/// How many picks an entry counts.
pub fn picks_in(entry: Option<Log>) -> u32
    ensures { result ≡ picks_in entry }
{
    match entry {
        Some(Log::Pick { count, .. }) => count,
        Some(Log::Open { .. }) | Some(Log::Cause { .. }) | None => 0,
    }
}

// What x0 to x27 hold.
fn registers_of(alloc: Global, guest: &Guest) -> Result<Vec<u32>, AllocError>
    ensures { IfOk result (λ registers.
        registers.items ≡ first_registers guest.now FREE_REGISTERS) }
{
    let mut registers = Vec::new(alloc);
    for k in 0..FREE_REGISTERS {
        registers.push(guest.register(k))?;
    }
    Ok(registers)
}

/// What a trace keeps of a guest that is so far in a service.
pub fn see(alloc: Global, point: Point, guest: &Guest) -> Result<Seen, AllocError>
    ensures { IfOk result (λ seen. seen ≡ seen_of point guest.now) }
{
    let registers = registers_of(alloc, guest)?;
    Ok(Seen {
        point,
        pc: guest.pc(),
        units: guest.units(),
        waits: guest.waits(),
        logged: guest.log().len(),
        picks: picks_in(last_of(guest.log())),
        registers: Numbers::from_vec(registers),
    })
}
