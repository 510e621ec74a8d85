//! The items of a text.

ghost use Rattle.std.specs.Prelude.{◌≡◌, ◌<◌, ◌^◌};
ghost use Rattle.cfi_instr.specs.Insns.{is_jalr, is_auipc};
ghost use Rattle.cfi_values.specs.Some.{holds};
ghost use Rattle.cfi_instr.specs.Items.{is_pair, is_inner, is_item, item_of, is_indirect};
ghost use Rattle.cfi_instr.specs.inner.Items.{is_item_at, is_bound_at};

use crate::insns::{is_auipc, is_jalr};
use crate::source::Source;
use rv_insn::Insn;

fn holds_auipc(insn: Option<Insn>) -> bool
    ensures { result ≡ holds is_auipc insn }
{
    match insn {
        Some(insn) => is_auipc(insn),
        None => false,
    }
}

fn holds_jalr(insn: Option<Insn>) -> bool
    ensures { result ≡ holds is_jalr insn }
{
    match insn {
        Some(insn) => is_jalr(insn),
        None => false,
    }
}

impl Source {
    /// Whether a pair begins at the word: AUIPC and JALR under one relocation.
    pub fn is_pair(&self, w: usize) -> bool
        requires { w < 2 ^ 62 }
        ensures { result ≡ is_pair self.now w }
    {
        self.call_on(w).is_some() && holds_auipc(self.insn_at(w)) && holds_jalr(self.insn_at(w + 1))
    }

    /// Whether the word is the second one of a pair.
    pub fn is_inner(&self, w: usize) -> bool
        requires { w < 2 ^ 62 }
        ensures { result ≡ is_inner self.now w }
    {
        w != 0 && self.is_pair(w - 1)
    }

    /// Whether an item begins at the word.
    pub fn is_item(&self, w: usize) -> bool
        requires { w < 2 ^ 62 }
        ensures { result ≡ is_item self.now w }
    {
        w < self.count() && !self.is_inner(w)
    }

    /// Whether an item begins at the offset.
    pub(crate) fn is_item_at(&self, offset: usize) -> bool
        ensures { result ≡ is_item_at self.now offset }
    {
        offset % 4 == 0 && self.is_item(offset / 4)
    }

    /// Whether an item begins at the offset, or the text ends there.
    pub(crate) fn is_bound_at(&self, offset: usize) -> bool
        ensures { result ≡ is_bound_at self.now offset }
    {
        self.is_item_at(offset) || (offset % 4 == 0 && offset / 4 == self.count())
    }

    /// The first word of the item that the word is in.
    pub fn item_of(&self, w: usize) -> usize
        requires { w < 2 ^ 62 }
        ensures { result ≡ item_of self.now w }
    {
        if self.is_inner(w) { w - 1 } else { w }
    }

    /// Whether the word is an indirect jump: JALR, but in a pair.
    pub fn is_indirect(&self, w: usize) -> bool
        requires { w < 2 ^ 62 }
        ensures { result ≡ is_indirect self.now w }
    {
        self.is_item(w) && holds_jalr(self.insn_at(w))
    }
}
