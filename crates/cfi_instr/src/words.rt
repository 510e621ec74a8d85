//! The first words that are refused for what they are.

ghost use Rattle.std.specs.Prelude.{◌≡◌, ◌*◌, ◌<◌, IfSome, IfNone};
ghost use Rattle.elf_read.specs.Lists.{Each};
ghost use Rattle.cfi_instr.specs.Words.{count_of};
ghost use Rattle.cfi_instr.specs.Insns.{OfInsn, IsInsn, NamesFree, IsNoTrap, LinksWell};
ghost use Rattle.cfi_instr.specs.Fault.{IsFirstWord};
ghost use Rattle.cfi_instr.specs.inner.Flaws.{is_illegal_at, is_reserved_at, is_trap_at, is_bad_link_at};

use crate::insns::{is_bad_link, is_trap, names_reserved};
use crate::source::Source;

impl Source {
    // Whether the word is no instruction.
    fn is_illegal_at(&self, w: usize) -> bool
        ensures { result ≡ is_illegal_at self.now w }
    {
        self.insn_at(w).is_none()
    }

    // Whether the word's instruction names a register of the instrumentation.
    fn is_reserved_at(&self, w: usize) -> bool
        ensures { result ≡ is_reserved_at self.now w }
    {
        match self.insn_at(w) {
            Some(insn) => names_reserved(insn),
            None => false,
        }
    }

    // Whether the word is EBREAK.
    fn is_trap_at(&self, w: usize) -> bool
        ensures { result ≡ is_trap_at self.now w }
    {
        match self.insn_at(w) {
            Some(insn) => is_trap(insn),
            None => false,
        }
    }

    // Whether the word is a jump that links by another register than x0 and x1.
    fn is_bad_link_at(&self, w: usize) -> bool
        ensures { result ≡ is_bad_link_at self.now w }
    {
        match self.insn_at(w) {
            Some(insn) => is_bad_link(insn),
            None => false,
        }
    }

    /// The first word that is no instruction.
    pub(crate) fn first_illegal(&self) -> Option<usize>
        ensures some { IfSome result (λ w. IsFirstWord self.now IsInsn (4 * w)) }
        ensures within { IfSome result (λ w. w < count_of self.now) }
        ensures none { IfNone result (Each self.now.insns IsInsn) }
    {
        for w in 0..self.count() {
            if self.is_illegal_at(w) {
                return Some(w);
            }
        }
        None
    }

    /// The first word whose instruction names a register of the instrumentation.
    pub(crate) fn first_reserved(&self) -> Option<usize>
        ensures some { IfSome result (λ w. IsFirstWord self.now (OfInsn NamesFree) (4 * w)) }
        ensures within { IfSome result (λ w. w < count_of self.now) }
        ensures none { IfNone result (Each self.now.insns (OfInsn NamesFree)) }
    {
        for w in 0..self.count() {
            if self.is_reserved_at(w) {
                return Some(w);
            }
        }
        None
    }

    /// The first EBREAK.
    pub(crate) fn first_trap(&self) -> Option<usize>
        ensures some { IfSome result (λ w. IsFirstWord self.now (OfInsn IsNoTrap) (4 * w)) }
        ensures within { IfSome result (λ w. w < count_of self.now) }
        ensures none { IfNone result (Each self.now.insns (OfInsn IsNoTrap)) }
    {
        for w in 0..self.count() {
            if self.is_trap_at(w) {
                return Some(w);
            }
        }
        None
    }

    /// The first jump that links by another register than x0 and x1.
    pub(crate) fn first_bad_link(&self) -> Option<usize>
        ensures some { IfSome result (λ w. IsFirstWord self.now (OfInsn LinksWell) (4 * w)) }
        ensures within { IfSome result (λ w. w < count_of self.now) }
        ensures none { IfNone result (Each self.now.insns (OfInsn LinksWell)) }
    {
        for w in 0..self.count() {
            if self.is_bad_link_at(w) {
                return Some(w);
            }
        }
        None
    }
}
