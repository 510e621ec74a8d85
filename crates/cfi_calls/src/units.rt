//! Units and the words that spell them, and what machines log and are answered.

use cfi_unit::laws::{one_code, one_unit, unit_within};
use cfi_unit::{Answer, Fill, Log, Stop, Unit, next_unit, spell};
use cfi_values::Bytes;
use std::alloc::{AllocError, Global};

// A check of `jalr x0,0(x1)` with slot 0, by GNU as 2.40; the rows change the words that they name.
const CHECK: [u32; 14] = [
    0x00008f93, 0x012fdf13, 0x020f1463, 0x20000e37, 0x000e2e83, 0x10000f37, 0x01ff0f33, 0x000f2f03,
    0x01ee8a63, 0x01df4f33, 0x010f1f13, 0xfe0f10e3, 0x00100073, 0x000f8067,
];

// The unit of the check with these words 0, 3, 4 and 13.
fn read(first: u32, high: u32, low: u32, last: u32) -> Option<(Unit, u32)> {
    let mut words = CHECK;
    words[0] = first;
    words[3] = high;
    words[4] = low;
    words[13] = last;
    next_unit(&words, 0)
}

fn check(link: bool, rs1: u32, imm: i32, slot: u32) -> Option<(Unit, u32)> {
    let unit = Unit::Check {
        link,
        rs1,
        imm,
        slot,
    };
    Some((unit, 14))
}

// Slots 0, 511, 512, 2047, 2048 and 4681.
fn read_as_checks() -> bool {
    let jump = 0x000f8067;
    let call = 0x000f80e7;
    read(0x00008f93, 0x20000e37, 0x000e2e83, jump) == check(false, 1, 0, 0)
        && read(0x800d8f93, 0x20000e37, 0x7fce2e83, call) == check(true, 27, -2048, 511)
        && read(0x7ffd8f93, 0x20001e37, 0x800e2e83, call) == check(true, 27, 2047, 512)
        && read(0x00008f93, 0x20002e37, 0xffce2e83, jump) == check(false, 1, 0, 2047)
        && read(0x00008f93, 0x20002e37, 0x000e2e83, jump) == check(false, 1, 0, 2048)
        && read(0x00008f93, 0x20005e37, 0x924e2e83, jump) == check(false, 1, 0, 4681)
}

// Slot 4682, before slot 0, half a slot, a half before slot 0.
fn stray_slots() -> bool {
    let jump = 0x000f8067;
    read(0x00008f93, 0x20005e37, 0x928e2e83, jump).is_none()
        && read(0x00008f93, 0x1ffffe37, 0xffce2e83, jump).is_none()
        && read(0x00008f93, 0x20000e37, 0x002e2e83, jump).is_none()
        && read(0x00008f93, 0x20000e37, 0xffce2e83, jump).is_none()
}

// jalr x2,0(x31); jalr x0,0(x1); addi x31,x28,0
fn stray_words() -> bool {
    read(0x00008f93, 0x20000e37, 0x000e2e83, 0x000f8167).is_none()
        && read(0x00008f93, 0x20000e37, 0x000e2e83, 0x00008067).is_none()
        && read(0x000e0f93, 0x20000e37, 0x000e2e83, 0x000f8067).is_none()
}

/// Which words are checks.
pub fn checks() -> bool {
    read_as_checks() && stray_slots() && stray_words()
}

/// The words of a check.
pub fn spelled_check(alloc: Global) -> Result<bool, AllocError> {
    let mut words = Vec::new(alloc);
    let unit = Unit::Check {
        link: false,
        rs1: 1,
        imm: 0,
        slot: 0,
    };
    spell(&unit, &mut words)?;
    Ok(words.as_slice() == CHECK.as_slice())
}

/// Words: GNU as 2.40, `-march=rv32i`.
pub fn spellings(alloc: Global) -> Result<bool, AllocError> {
    one_unit();
    unit_within();
    one_code();
    let mut words = Vec::new(alloc);
    let jump = Unit::Jump {
        link: true,
        off: 1048574,
    };
    spell(&jump, &mut words)?;
    spell(&Unit::Service, &mut words)?;
    Ok(
        words.as_slice() == [0x7ffff0ef, 0x00000073].as_slice()
            && next_unit(words.as_slice(), 1) == Some((Unit::Service, 1)),
    )
}

// Whether an answer of these fills has what it was made of, and so has its log.
fn is_plain(fills: &[Fill]) -> bool {
    let answer = Answer {
        address: 0x40,
        cause: 0,
        policy: 1,
        fills,
    };
    let entry = Log::Open {
        module: 2,
        address: answer.address,
        policy: answer.policy,
    };
    let written = Log::Open {
        module: 2,
        address: 0x40,
        policy: 1,
    };
    match answer.fills {
        [fill] => fill.bytes.as_slice() == [1, 2].as_slice() && entry == written,
        _ => false,
    }
}

/// What machines log and are answered is plain data.
pub fn answers(alloc: Global) -> Result<bool, AllocError> {
    let mut fills = Vec::new(alloc);
    fills.push(Fill {
        at: 0x40000000,
        bytes: Bytes::from_vec(vec![in alloc; 1, 2]?),
    })?;
    let is_kept = is_plain(fills.as_slice()) && Stop::Exit(0) != Stop::Fuel;
    let Some(fill) = fills.pop() else {
        return Ok(false);
    };
    Ok(is_kept && fill.bytes.into_vec().len() == 2)
}
