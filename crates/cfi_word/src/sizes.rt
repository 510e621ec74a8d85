//! How many instructions units have, and how many of them run.

use crate::limits::MAX_CODE_WORDS;

/// The number of words of a masked access, each an instruction that runs.
pub const ACCESS_WORDS: usize = 6;

/// The number of words of a check.
pub const CHECK_WORDS: usize = 14;

/// Slots of branches are below this: one more than the checks that fit into the largest code.
pub const SLOTS: u32 = MAX_CODE_WORDS / CHECK_WORDS as u32 + 1;

/// How many instructions of a check run where its target is past the code.
pub const OUTSIDE_STEPS: u32 = 4;

/// How many instructions of a check run where its target is misaligned.
pub const MISALIGNED_STEPS: u32 = 8;

/// How many instructions of a check run where it goes to its target, after its last try.
pub const PASSED_STEPS: u32 = 10;

/// How many instructions of a check run where its policy forbids the target, after its last try.
pub const FORBIDDEN_STEPS: u32 = 13;

/// How many instructions of a check run from the first load of one try to that of the next.
pub const RETRY_STEPS: u32 = 9;
