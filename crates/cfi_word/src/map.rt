//! The memory map of a guest. Addresses are in bytes; code words count from address 0, four bytes each.

use crate::limits::{MAX_CODE_WORDS, MAX_DATA};

/// The code word at which the first module begins. No module begins before it.
pub const FIRST_BASE: u32 = 16;

/// The number of bytes of the largest code.
pub const CODE_BYTES: u32 = 4 * MAX_CODE_WORDS;

/// The address of the Tary ID of code address 0; that of code address a is a after it.
pub const TARY: u32 = 0x1000_0000;

/// The address of the Bary ID of slot 0; that of slot b is 4 b after it.
pub const BARY: u32 = 0x2000_0000;

/// The address at which a guest's data begins.
pub const DATA_START: u32 = 0x4000_0000;

/// The number of bytes of private data, which begins at `DATA_START`.
pub const DATA_BYTES: u32 = 0x10_0000;

/// What x2 holds at the start, the address after private data.
pub const STACK: u32 = DATA_START + DATA_BYTES;

/// The address at or before which all static data of modules ends.
pub const DATA_END: u32 = DATA_START + MAX_DATA as u32;

/// The data of each module, and of each section of an object, begins at a multiple of at most this number of bytes.
pub const DATA_ALIGNMENT: usize = 16;
