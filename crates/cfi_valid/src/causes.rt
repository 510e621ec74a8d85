//! The causes of refused opens that the loader alone finds; those that any run can find are `cfi_word`'s.

/// No further module may be loaded.
pub const MODULES_FULL: u32 = 2;

/// The module is not placed.
pub const NOT_PLACED: u32 = 3;

/// It does not verify.
pub const NOT_VERIFIED: u32 = 4;

/// A guest's QUIET word is too old for the next version.
pub const VERSIONS_SPENT: u32 = 5;

/// The epochs are used up.
pub const EPOCHS_SPENT: u32 = 6;

/// The module was retired.
pub const RETIRED: u32 = 11;
