//! Indirect jumps and their records.

ghost use Rattle.std.specs.Prelude.{◌≡◌, ◌*◌, ◌<◌, ◌≤◌, ◌^◌, IfSome, IfNone};
ghost use Rattle.std.specs.Option.{option_copied};
ghost use Rattle.elf_read.specs.Lists.{Each, IsFirstBreak};
ghost use Rattle.cfi_instr.specs.Words.{count_of};
ghost use Rattle.cfi_instr.specs.Jumps.{HasRecord, AreUsed, SwitchFits};
ghost use Rattle.cfi_instr.specs.Fault.{IsFirstBare, jump_number};
ghost use Rattle.cfi_instr.specs.inner.Homes.{AreApart};
ghost use Rattle.cfi_instr.specs.inner.Jumps.{is_call, has_fitting_kind, lacks_kind_by, switches_astray, lead_out, has_bad_switch_by};

use crate::insns::is_linked;
use crate::source::Source;
use cfi_aux::{Function, Kind};

// Whether it is a call through a pointer.
fn is_call(kind: &Kind) -> bool
    ensures { result ≡ is_call kind.now }
{
    matches!(kind, Kind::Call(_))
}

// Whether there is a record, and it is one of a call exactly where the jump links.
fn has_kind(linked: bool, kind: Option<&Kind>) -> bool
    ensures { result ≡ has_fitting_kind linked (option_copied kind.entry) }
{
    match kind {
        Some(kind) => { if is_call(kind) { linked } else { !linked } }
        None => false,
    }
}

impl Source {
    // Whether the indirect jump at the word, which is the one of this number, has no fitting record.
    fn lacks_kind(&self, branches: &[Kind], w: usize, number: usize) -> bool
        requires { w < 2 ^ 62 }
        ensures { result ≡ lacks_kind_by self.now branches.now w number }
    {
        let linked = match self.insn_at(w) {
            Some(insn) => is_linked(insn),
            None => false,
        };
        self.is_indirect(w) && !has_kind(linked, branches.get(number))
    }

    /// The first indirect jump without a fitting record, or the number of words where records are left over.
    pub(crate) fn first_unkind(&self, branches: &[Kind]) -> Option<usize>
        requires { count_of self.now < 2 ^ 62 }
        ensures some { IfSome result (λ w. IsFirstBare self.now branches.now (4 * w)) }
        ensures within { IfSome result (λ w. w ≤ count_of self.now) }
        ensures none { IfNone result (Each self.now.insns (HasRecord self.now branches.now)) }
        ensures used { IfNone result (AreUsed self.now branches.now) }
    {
        let mut number = 0;
        for w in 0..self.count() {
            if self.lacks_kind(branches, w, number) {
                return Some(w);
            }
            if self.is_indirect(w) {
                number += 1;
            }
        }
        if number < branches.len() {
            return Some(self.count());
        }
        None
    }

    // Whether an entry is no item of the function that has the jump at the offset.
    fn lead_out(&self, functions: &[Function], at: usize, entries: &[u32]) -> bool
        requires { AreApart functions.now }
        ensures { result ≡ lead_out self.now functions.now at entries.now }
    {
        for entry in entries {
            if !self.is_own_item(functions, at, *entry as usize) {
                return true;
            }
        }
        false
    }

    // Whether a switch has such an entry.
    fn switches_astray(&self, functions: &[Function], at: usize, kind: &Kind) -> bool
        requires { AreApart functions.now }
        ensures { result ≡ switches_astray self.now functions.now at kind.now }
    {
        match kind {
            Kind::Switch(entries) => self.lead_out(functions, at, entries.as_slice()),
            Kind::Call(_) | Kind::Tail(_) | Kind::Return | Kind::Import { .. } => false,
        }
    }

    // Whether the record of the indirect jump at the word, which is the one of this number, has such an entry.
    fn has_bad_switch(
        &self,
        functions: &[Function],
        branches: &[Kind],
        w: usize,
        number: usize,
    ) -> bool
        requires word { 4 * w < 2 ^ 32 }
        requires order { AreApart functions.now }
        ensures { result ≡ has_bad_switch_by self.now functions.now branches.now w number }
    {
        let astray = match branches.get(number) {
            Some(kind) => self.switches_astray(functions, 4 * w, kind),
            None => false,
        };
        self.is_indirect(w) && astray
    }

    /// The number of the first indirect jump whose record has an entry that is no item of its function.
    pub(crate) fn first_bad_switch(
        &self,
        functions: &[Function],
        branches: &[Kind],
    ) -> Option<usize>
        requires count { 4 * count_of self.now < 2 ^ 32 }
        requires order { AreApart functions.now }
        ensures some { IfSome result (IsFirstBreak self.now.insns (jump_number self.now)
            (SwitchFits self.now functions.now branches.now)) }
        ensures small { IfSome result (λ k. k < 2 ^ 32) }
        ensures none { IfNone result
            (Each self.now.insns (SwitchFits self.now functions.now branches.now)) }
    {
        let mut number = 0;
        for w in 0..self.count() {
            if self.has_bad_switch(functions, branches, w, number) {
                return Some(number);
            }
            if self.is_indirect(w) {
                number += 1;
            }
        }
        None
    }
}
