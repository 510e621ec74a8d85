//! How many modules may be loaded.

use cfi_word::limits::MAX_STARTS;

/// The greatest number of modules that are loaded at once: as many as may be there from the start.
pub const MAX_LOADED: u32 = MAX_STARTS;
