//! Checks of the policy machine.

use super::{goes, turn};
use cfi_model::{Log, Plain, Stop};
use cfi_word::Edge;
use std::alloc::{AllocError, Global};

// Slot 0 may go to 4 and 64, slot 1 to 60.
const PAIRS: [Edge; 3] = [
    Edge {
        branch: 0,
        target: 4,
    },
    Edge {
        branch: 0,
        target: 64,
    },
    Edge {
        branch: 1,
        target: 60,
    },
];

// A machine that has run an instruction, and a check of `jalr x0,0(x1)` or `jalr x1,0(x1)` with slot 0, at address 4;
// none where one of so many turns has no unit.
fn checked(alloc: Global, first: u32, last: u32, turns: u32) -> Result<Option<Plain>, AllocError> {
    let code = [
        first, 0x00008f93, 0x012fdf13, 0x020f1463, 0x20000e37, 0x000e2e83, 0x10000f37, 0x01ff0f33,
        0x000f2f03, 0x01ee8a63, 0x01df4f33, 0x010f1f13, 0xfe0f10e3, 0x00100073, last,
    ];
    let mut m = Plain::open(alloc, 0, 0, &[])?;
    let mut has_run = goes(&mut m, &code, 1);
    for _ in 0..turns {
        has_run = has_run && turn(&mut m, &code, &PAIRS).is_some();
    }
    Ok(if has_run { Some(m) } else { None })
}

// Whether the log has so many picks alone.
fn has_picked(m: &Plain, count: u32) -> bool {
    let picks = Log::Pick { policy: 255, count };
    m.log() == [picks].as_slice()
}

// x1 = 64, and this number after the check.
fn passes(alloc: Global, last: u32, link: u32) -> Result<bool, AllocError> {
    let Some(m) = checked(alloc, 0x04000093, last, 1)? else {
        return Ok(false);
    };
    Ok(
        (m.pc(), m.register(1), m.stop()) == (64, link, None)
            && (m.units(), m.steps()) == (2, 11)
            && has_picked(&m, 1),
    )
}

/// A check that passes; it links, or not.
pub fn a_check_passes(alloc: Global) -> Result<bool, AllocError> {
    Ok(passes(alloc, 0x000f8067, 64)? && passes(alloc, 0x000f80e7, 60)?)
}

/// x1 = 4, the check's own address: neighbouring picks are one entry.
pub fn picks_are_counted(alloc: Global) -> Result<bool, AllocError> {
    let Some(m) = checked(alloc, 0x00400093, 0x000f8067, 3)? else {
        return Ok(false);
    };
    Ok((m.pc(), m.units(), m.steps()) == (4, 4, 31) && has_picked(&m, 3))
}

/// x1 = 60, to which slot 1 alone may go.
pub fn a_check_halts(alloc: Global) -> Result<bool, AllocError> {
    let Some(m) = checked(alloc, 0x03c00093, 0x000f80e7, 1)? else {
        return Ok(false);
    };
    Ok(
        m.stop() == Some(Stop::Halt(60))
            && (m.pc(), m.register(1), m.units(), m.steps()) == (4, 60, 2, 14)
            && has_picked(&m, 1),
    )
}

// A number is put into x1, at which the check halts before it has picked, after so many steps.
fn halts(alloc: Global, first: u32, target: u32, steps: u64) -> Result<bool, AllocError> {
    let Some(m) = checked(alloc, first, 0x000f8067, 1)? else {
        return Ok(false);
    };
    Ok(
        m.stop() == Some(Stop::Halt(target))
            && (m.pc(), m.units(), m.steps()) == (4, 2, steps)
            && m.log().is_empty(),
    )
}

/// x1 = 66, and x1 = 0x40000, past the code.
pub fn a_check_halts_before_the_tables(alloc: Global) -> Result<bool, AllocError> {
    Ok(halts(alloc, 0x04200093, 66, 9)? && halts(alloc, 0x000400b7, 0x40000, 5)?)
}
