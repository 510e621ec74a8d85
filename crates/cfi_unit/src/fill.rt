//! What an open is answered.

use cfi_values::Bytes;

/// Initial data for a place in private data.
#[derive(Debug, Drop)]
pub struct Fill {
    /// The address of the first byte.
    pub at: u32,
    /// The bytes from there on.
    pub bytes: Bytes,
}

/// What a guest's open is answered.
#[derive(Clone, Copy, Debug)]
pub struct Answer<'a> {
    /// The address of the module's first global function, or 0.
    pub address: u32,
    /// 0 for a success, else why the module was not opened.
    pub cause: u32,
    /// The loader's policy.
    pub policy: u32,
    /// The data that the guest has not received yet, in load order.
    pub fills: &'a [Fill],
}
