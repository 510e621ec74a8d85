//! The limits of all that is read, made and run.

use crate::map::FIRST_BASE;
use crate::sizes::CHECK_WORDS;

// ---- files, and what is in them

/// The most bytes that a file has where it is read.
pub const MAX_FILE_BYTES: usize = 1_048_576;

/// The greatest length of a name, in bytes. The least is 1.
pub const MAX_NAME: usize = 255;

/// The greatest number of sections of an object.
pub const MAX_SECTIONS: usize = 1_024;

/// The greatest number of symbols of an object.
pub const MAX_SYMBOLS: usize = 16_384;

/// The greatest number of relocations of an object.
pub const MAX_RELOCS: usize = 65_536;

/// The greatest number of words of an object's text: one that fills the largest code.
pub const MAX_WORDS: usize = (MAX_CODE_WORDS - FIRST_BASE) as usize;

/// The greatest number of bytes of an object's data.
pub const MAX_DATA: usize = 524_288;

/// The greatest number of nodes of a type table.
pub const MAX_NODES: u32 = 1_024;

/// The greatest number of fields of a type node.
pub const MAX_FIELDS: u32 = 255;

/// The greatest number of functions of an object.
pub const MAX_FUNCTIONS: u32 = 16_384;

/// The greatest number of branches of an object, which is that of the checks that its text has room for.
pub const MAX_BRANCHES: u32 = (MAX_WORDS / CHECK_WORDS) as u32;

/// The greatest number of entries of a switch.
pub const MAX_ENTRIES: u32 = 1_024;

/// The most files that a command links.
pub const MAX_INPUTS: usize = 64;

// ---- tables

/// The least number of code words of a table.
pub const MIN_CODE_WORDS: u32 = 1_024;

/// The greatest number of code words of a table.
pub const MAX_CODE_WORDS: u32 = 65_536;

/// The least number of versions.
pub const MIN_VERSIONS: u32 = 3;

/// The greatest number of versions, which is how many an ID can tell apart.
pub const MAX_VERSIONS: u32 = 16_384;

/// The greatest epoch.
pub const MAX_EPOCH: u32 = 16_777_215;

/// The greatest policy number.
pub const MAX_POLICY: u32 = 255;

// ---- plans

/// The greatest number of modules of a plan.
pub const MAX_MODULES: usize = 128;

/// The greatest number of modules that are there from the start.
pub const MAX_STARTS: u32 = 64;

/// The greatest number of guests, each of which has a QUIET word. The least is 1.
pub const GUESTS: u32 = 16;

/// The greatest number of script lines.
pub const MAX_SCRIPT: usize = 1_000;

/// The greatest number of refreshes in all.
pub const MAX_REFRESHES: u32 = 10_000;

// ---- runs

/// The greatest fuel. The least is 1.
pub const MAX_FUEL: u32 = 10_000_000;

/// The fuel where a plan names none, and of the guest of a bare file.
pub const FUEL: u32 = 1_000_000;

/// The most bytes that a guest's output holds.
pub const MAX_OUTPUT: usize = 65_536;

/// The most opens that are logged.
pub const MAX_OPENS: u32 = 1_024;

/// The entries that a log has room for: each open, and a pick before and after each, and one for each later policy.
pub const MAX_LOG: usize = 2 * MAX_OPENS as usize + MAX_POLICY as usize + 1;
