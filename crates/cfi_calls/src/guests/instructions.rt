//! Instructions of guests.

use super::{goes, put_into};
use rv_guest::Guest;
use std::alloc::{AllocError, Global};

/// jal x1,16 and jal x0,-4; jalr x5,1(x5), whose target's lowest bit is cleared.
pub fn jumps(alloc: Global) -> Result<bool, AllocError> {
    let mut guest = Guest::open(alloc, 0, 64, &[])?;
    let forward = goes(&mut guest, &[0x010000ef]) && (guest.pc(), guest.register(1)) == (80, 68);
    let back = goes(&mut guest, &[0xffdff06f]) && (guest.pc(), guest.register(0)) == (76, 0);
    put_into(&mut guest, 5, 0x100);
    let indirect = goes(&mut guest, &[0x001282e7])
        && (guest.pc(), guest.register(5)) == (0x100, 88);
    Ok(forward && back && indirect)
}

/// An instruction that names x28 to x31 is no unit; a word that is no instruction is no step.
pub fn counts(alloc: Global) -> Result<bool, AllocError> {
    let mut guest = Guest::open(alloc, 0, 64, &[])?;
    let inner = goes(&mut guest, &[0x00028f93, 0x01efefb3, 0x020f1463])
        && (guest.units(), guest.steps()) == (0, 3);
    let none = goes(&mut guest, &[0, 0xffff_ffff])
        && (guest.pc(), guest.units(), guest.steps()) == (76, 0, 3);
    Ok(inner && none)
}
