//! Where a module begins among joined ones.

ghost use Rattle.std.specs.Prelude.{◌≡◌};
ghost use Rattle.cfi_link.specs.Gap.{gap};

use cfi_word::map::DATA_ALIGNMENT;

/// Where a module begins among joined ones.
#[derive(Clone, Copy, Debug, PartialEq, Eq)]
pub struct Start {
    /// How many bytes of text stand before it.
    pub text: u32,
    /// Where its data begins, in bytes from the start of the data.
    pub static_data: u32,
    /// How many symbols stand before it.
    pub symbols: u32,
    /// How many nodes of types stand before it.
    pub types: u32,
}

/// How many bytes are missing to a multiple of `DATA_ALIGNMENT`.
pub fn gap(length: usize) -> usize
    ensures { result ≡ gap length }
{
    (DATA_ALIGNMENT - length % DATA_ALIGNMENT) % DATA_ALIGNMENT
}
