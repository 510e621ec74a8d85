//! The greatest sections of types and of records.

/// The greatest number of bytes of a section of types: 1,024 nodes with 255 fields each.
pub const MAX_TYPES: usize = 1_052_676;

/// The greatest number of bytes of a section of records: 16,384 functions with names of 255 bytes, and 4,680 switches
/// with 1,024 places each.
pub const MAX_RECORDS: usize = 23_728_716;
