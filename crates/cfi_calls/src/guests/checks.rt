//! Checks of guests, with the loads of table words.

use super::{goes, step};
use cfi_word::Word;
use rv_guest::{Act, Guest, Log, Stop, Wait};
use std::alloc::{AllocError, Global};

// Table words of policy 255 and epoch 0: classes 1 and 2 of version 0, and class 1 of version 1.
const FIRST: u64 = 0x00ff_0002_0001;

const SECOND: u64 = 0x00ff_0004_0001;

const LATER: u64 = 0x00ff_0002_0003;

// x1 = 128, and the first words of a check of `jalr x0,0(x1)` or `jalr x1,0(x1)`.
const START: [u32; 4] = [0x08000093, 0x00008f93, 0x012fdf13, 0x020f1463];

// What follows the comparison of two IDs that differ.
const AGAIN: [u32; 3] = [0x01df4f33, 0x010f1f13, 0xfe0f10e3];

// Ends a table load.
fn finish(guest: &mut Guest, word: u64) {
    let _ = guest.log();
    match guest.waits() {
        Some(Wait::Tary { .. }) if Word::policy_of(word) == 255 => guest.finish(word),
        Some(Wait::Bary { .. }) => guest.finish(word),
        _ => {}
    }
}

// The load of a check's Bary word, of slot 0, from its fourth word to what comes before the load of its Tary word.
fn loads_bary(guest: &mut Guest, bary: u64) -> bool {
    let asks = goes(guest, &[0x20000e37])
        && step(guest, 0x000e2e83) == Some(Act::Need(0x2000_0000));
    finish(guest, bary);
    asks && goes(guest, &[0x10000f37, 0x01ff0f33])
}

// The loads of a check with slot 0, from its fourth word to the comparison of the IDs.
fn compares(guest: &mut Guest, bary: u64, tary: u64, target: u32) -> bool {
    let loads = loads_bary(guest, bary);
    let asks = step(guest, 0x000f2f03) == Some(Act::Need(target.wrapping_add(0x1000_0000)));
    finish(guest, tary);
    loads && asks && goes(guest, &[0x01ee8a63])
}

// Whether the log has one pick alone.
fn has_picked(guest: &Guest) -> bool {
    let pick = Log::Pick {
        policy: 255,
        count: 1,
    };
    guest.log() == [pick].as_slice()
}

// By the check's last word, what x1 has at the end.
fn passes(alloc: Global, last: u32, link: u32) -> Result<bool, AllocError> {
    let mut guest = Guest::open(alloc, 0, 64, &[])?;
    Ok(
        goes(&mut guest, &START)
            && compares(&mut guest, FIRST, FIRST, 128)
            && goes(&mut guest, &[last])
            && (guest.pc(), guest.register(1), guest.stop()) == (128, link, None)
            && (guest.units(), guest.steps()) == (2, 11)
            && has_picked(&guest),
    )
}

/// Equal IDs: it goes to the target, and links or not.
pub fn a_check_passes(alloc: Global) -> Result<bool, AllocError> {
    Ok(passes(alloc, 0x000f8067, 128)? && passes(alloc, 0x000f80e7, 124)?)
}

/// Other versions: it tries again. Then IDs of one version and two classes: it halts.
pub fn a_check_tries_again_and_halts(alloc: Global) -> Result<bool, AllocError> {
    let mut guest = Guest::open(alloc, 0, 64, &[])?;
    let again = goes(&mut guest, &START)
        && compares(&mut guest, FIRST, LATER, 128)
        && goes(&mut guest, &AGAIN)
        && guest.pc() == 80;
    let halts = compares(&mut guest, FIRST, SECOND, 128)
        && goes(&mut guest, &AGAIN)
        && step(&mut guest, 0x00100073) == Some(Act::Halt(128))
        && guest.stop() == Some(Stop::Halt(128));
    Ok(again && halts && (guest.units(), guest.steps()) == (2, 23) && has_picked(&guest))
}

/// x1 = 66: the load of the Tary ID stops the guest, without a pick.
pub fn a_misaligned_check_halts(alloc: Global) -> Result<bool, AllocError> {
    let mut guest = Guest::open(alloc, 0, 64, &[])?;
    Ok(
        goes(
            &mut guest,
            &[0x04200093, 0x00008f93, 0x012fdf13, 0x020f1463],
        ) && loads_bary(&mut guest, FIRST)
            && step(&mut guest, 0x000f2f03) == Some(Act::Halt(66))
            && guest.stop() == Some(Stop::Halt(66))
            && (guest.units(), guest.steps()) == (2, 9)
            && guest.log().is_empty(),
    )
}

/// x1 = 0x40000, past the code: it goes to ebreak, without a pick.
pub fn a_check_past_the_code_halts(alloc: Global) -> Result<bool, AllocError> {
    let mut guest = Guest::open(alloc, 0, 64, &[])?;
    Ok(
        goes(
            &mut guest,
            &[0x000400b7, 0x00008f93, 0x012fdf13, 0x020f1463],
        ) && guest.pc() == 116
            && step(&mut guest, 0x00100073) == Some(Act::Halt(0x40000))
            && (guest.units(), guest.steps()) == (2, 5)
            && guest.log().is_empty(),
    )
}
