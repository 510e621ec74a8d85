//! Stray jumps and branches.

ghost use Rattle.std.specs.Prelude.{◌≡◌, ◌*◌, ◌<◌, ◌^◌, IfSome, IfNone};
ghost use Rattle.elf_read.specs.Lists.{Each};
ghost use Rattle.cfi_instr.specs.Words.{count_of};
ghost use Rattle.cfi_instr.specs.Leads.{WordLeadsWell};
ghost use Rattle.cfi_instr.specs.Fault.{IsFirstWord};
ghost use Rattle.cfi_instr.specs.inner.Homes.{AreApart};
ghost use Rattle.cfi_instr.specs.inner.Stray.{branches_well, jumps_well, leads_well, calls_well, goes_well, is_stray};

use crate::home::is_entry;
use crate::insns::is_unlinked;
use crate::source::Source;
use crate::target::Aim;
use cfi_aux::Function;
use elf_read::Symbol;
use rv_insn::Insn;

impl Source {
    // Whether a branch goes to an item of its own function.
    fn branches_well(&self, functions: &[Function], at: usize, aim: Aim) -> bool
        requires { AreApart functions.now }
        ensures { result ≡ branches_well self.now functions.now at aim }
    {
        match aim {
            Aim::Offset(offset) => self.is_own_item(functions, at, offset),
            Aim::Name | Aim::Astray => false,
        }
    }

    // Whether a jump goes to a function's first item, or without link to an item of its own function, or calls a name.
    fn jumps_well(&self, functions: &[Function], at: usize, unlinked: bool, aim: Aim) -> bool
        requires { AreApart functions.now }
        ensures { result ≡ jumps_well self.now functions.now at unlinked aim }
    {
        match aim {
            Aim::Offset(offset) => {
                is_entry(functions, offset) || (unlinked && self.is_own_item(functions, at, offset))
            }
            Aim::Name => true,
            Aim::Astray => false,
        }
    }

    // Whether an instruction that is an item by itself leads where it may.
    fn leads_well(&self, symbols: &[Symbol], functions: &[Function], w: usize, insn: Insn) -> bool
        requires word { 4 * w < 2 ^ 32 }
        requires order { AreApart functions.now }
        ensures { result ≡ leads_well self.now symbols.now functions.now w insn }
    {
        match insn {
            Insn::Branch { off, .. } => {
                self.branches_well(functions, 4 * w, self.aim_of_jump(symbols, w, off))
            }
            Insn::Jal { off, .. } => {
                let aim = self.aim_of_jump(symbols, w, off);
                self.jumps_well(functions, 4 * w, is_unlinked(insn), aim)
            }
            _ => true,
        }
    }

    // Whether the pair at the word does.
    fn calls_well(&self, symbols: &[Symbol], functions: &[Function], w: usize) -> bool
        requires word { 4 * w < 2 ^ 32 }
        requires order { AreApart functions.now }
        ensures { result ≡ calls_well self.now symbols.now functions.now w }
    {
        let unlinked = match self.insn_at(w + 1) {
            Some(insn) => is_unlinked(insn),
            None => false,
        };
        self.jumps_well(functions, 4 * w, unlinked, self.aim_of_pair(symbols, w))
    }

    fn goes_well(&self, symbols: &[Symbol], functions: &[Function], w: usize) -> bool
        requires word { 4 * w < 2 ^ 32 }
        requires order { AreApart functions.now }
        ensures { result ≡ goes_well self.now symbols.now functions.now w }
    {
        if self.is_pair(w) {
            return self.calls_well(symbols, functions, w);
        }
        match self.insn_at(w) {
            Some(insn) => self.leads_well(symbols, functions, w, insn),
            None => true,
        }
    }

    // Whether the item at the word is stray.
    fn is_stray(&self, symbols: &[Symbol], functions: &[Function], w: usize) -> bool
        requires word { 4 * w < 2 ^ 32 }
        requires order { AreApart functions.now }
        ensures { result ≡ is_stray self.now symbols.now functions.now w }
    {
        self.is_item(w) && !self.goes_well(symbols, functions, w)
    }

    /// The first item that is stray.
    pub(crate) fn first_stray(&self, symbols: &[Symbol], functions: &[Function]) -> Option<usize>
        requires count { 4 * count_of self.now < 2 ^ 32 }
        requires order { AreApart functions.now }
        ensures some { IfSome result
            (λ w. IsFirstWord self.now (WordLeadsWell self.now symbols.now functions.now) (4 * w)) }
        ensures within { IfSome result (λ w. w < count_of self.now) }
        ensures none { IfNone result
            (Each self.now.insns (WordLeadsWell self.now symbols.now functions.now)) }
    {
        for w in 0..self.count() {
            if self.is_stray(symbols, functions, w) {
                return Some(w);
            }
        }
        None
    }
}
