//! How a module's text is arranged in the output.

use crate::source::Source;
use elf_read::Symbol;
use std::marker::Model;

/// The text of a module, and where its units go. No offset is above `MAX_BYTES`.
#[derive(Drop)]
pub struct Arrangement<'a> {
    /// What is read of the text.
    pub(crate) source: &'a Source,
    /// The symbols that its relocations name.
    pub(crate) symbols: &'a [Symbol],
    /// Whether each word is a long branch.
    pub(crate) long: &'a [bool],
    /// The offset of each word's unit in the output, and of the output's end.
    pub(crate) offsets: &'a [u32],
}

impl<'a> Model for Arrangement<'a> {
    ghost use Rattle.cfi_instr.specs.Sizes.{AreSmall};
    ghost use Rattle.cfi_instr.specs.inner.Arrangement.{Arrangement, arrangement_by};

    ghost Value = { Arrangement };

    ghost view = { λ a. arrangement_by a.source.now a.symbols.now a.long.now a.offsets.now };

    ghost invariant = { λ a. AreSmall a.offsets.now };
}
