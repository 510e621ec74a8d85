//! Guests of the raw machine, word by word, by the manual and MCFI.

pub mod checks;
pub mod instructions;
pub mod pages;
pub mod services;

use rv_guest::{Act, Guest};

// Runs one word, where the count of steps allows it.
fn step(guest: &mut Guest, word: u32) -> Option<Act> {
    if guest.steps() >= u32::MAX {
        return None;
    }
    Some(guest.begin(word))
}

// Runs words. Whether none asks for anything.
fn goes(guest: &mut Guest, words: &[u32]) -> bool {
    let mut went = true;
    for word in words {
        went = went && step(guest, *word) == Some(Act::Done);
    }
    went
}

// lui and addi that put a number into a register.
fn put_into(guest: &mut Guest, register: u32, number: u32) {
    let upper = number.wrapping_add(0x800) & 0xffff_f000;
    let rd = (register % 32) << 7;
    let _ = step(guest, upper | rd | 0x37);
    let _ = step(guest, (number << 20) | (rd << 8) | rd | 0x13);
}
