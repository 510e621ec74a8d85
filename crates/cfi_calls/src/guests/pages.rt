//! Which pages of private data a guest makes.

use super::{goes, put_into};
use cfi_values::Items;
use rv_guest::{Fill, Guest};
use std::alloc::{AllocError, Global};

// sb x0,0(x5) and lb x6,0(x5).
const STORE: u32 = 0x00028023;

const LOAD: u32 = 0x00028303;

// Loads from the address, then stores there. How many pages there are after each.
fn touches(guest: &mut Guest, address: u32) -> (u32, u32) {
    put_into(guest, 5, address);
    let _ = goes(guest, &[LOAD]);
    let loaded = guest.pages();
    let _ = goes(guest, &[STORE]);
    (loaded, guest.pages())
}

/// A store makes its page once, a load makes none, and a fill makes those that it lies in.
pub fn are_made(alloc: Global) -> Result<bool, AllocError> {
    let mut guest = Guest::open(alloc, 0, 64, &[])?;
    let none = guest.pages();
    let last = touches(&mut guest, 0x40000fff);
    let next = touches(&mut guest, 0x40001000);
    let again = touches(&mut guest, 0x40000000);
    let fill = Fill {
        at: 0x40000ffe,
        bytes: Items::from_vec(vec![in alloc; 1u8; 4_099]?),
    };
    let filled = Guest::open(alloc, 1, 64, vec![in alloc; fill]?.as_slice())?;
    Ok((none, last, next, again, filled.pages()) == (0, (0, 1), (1, 2), (2, 2), 3))
}
