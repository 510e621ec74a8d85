//! The text of an instrumented module.

ghost use Rattle.std.specs.Prelude.{◌≡◌, ◌*◌, ◌<◌, ◌^◌, ◌++◌, OnOk, IfOk, Some};
ghost use Rattle.std.specs.List.{flat_map};
ghost use Rattle.cfi_unit.specs.Unit.{words_of};
ghost use Rattle.cfi_instr.specs.Words.{count_of};
ghost use Rattle.cfi_instr.specs.Jumps.{ordinal_of};
ghost use Rattle.cfi_instr.specs.Units.{AreUnits};
ghost use Rattle.cfi_instr.specs.inner.Arrangement.{insn_units_by, units_at_by, units_by, AllSpellBy};

use crate::arrangement::Arrangement;
use crate::units::{over, pair_unit};
use cfi_unit::spell;
use rv_insn::Insn;
use std::alloc::{AllocError, Global};

impl<'a> Arrangement<'a> {
    // Appends the units of an instruction that is an item by itself.
    fn put_insn(
        &self,
        out: &mut Vec<u32>,
        w: usize,
        number: u32,
        insn: Insn,
    ) -> Result<(), AllocError>
        requires word { 4 * w < 2 ^ 32 }
        requires number { number ≡ ordinal_of self.now.source w }
        requires fits { AreUnits (insn_units_by self.now w (Some insn)) }
        ensures { OnOk result (out.new.items ≡
            out.old.items ++ flat_map words_of (insn_units_by self.now w (Some insn))) }
    {
        if self.is_wide(w, insn) {
            spell(&over(insn), out)?;
            spell(&self.long_jump(w, insn), out)?;
            return Ok(());
        }
        spell(&self.short_unit(w, number, insn), out)
    }

    // Appends the units of the item that begins at the word.
    #[tactic(auto, unfolding(crate::specs::Units::units_at))]
    fn put_item(&self, out: &mut Vec<u32>, w: usize, number: u32) -> Result<(), AllocError>
        requires word { 4 * w < 2 ^ 32 }
        requires number { number ≡ ordinal_of self.now.source w }
        requires fits { AreUnits (units_at_by self.now w) }
        ensures { OnOk result (out.new.items ≡
            out.old.items ++ flat_map words_of (units_at_by self.now w)) }
    {
        if self.source.is_inner(w) {
            return Ok(());
        }
        if self.source.is_pair(w) {
            return spell(&pair_unit(self.source, w), out);
        }
        match self.source.insn_at(w) {
            Some(insn) => self.put_insn(out, w, number, insn),
            None => Ok(()),
        }
    }

    /// The words of the units of all items.
    pub fn words(&self, alloc: Global) -> Result<Vec<u32>, AllocError>
        requires count { 4 * count_of self.now.source < 2 ^ 32 }
        requires fits { AllSpellBy self.now }
        ensures { IfOk result (λ words. words.items ≡ flat_map words_of (units_by self.now)) }
    {
        let mut words = Vec::new(alloc);
        let mut number = 0;
        for w in 0..self.source.count() {
            self.put_item(&mut words, w, number)?;
            if self.source.is_indirect(w) {
                number += 1;
            }
        }
        Ok(words)
    }
}
