//! The functions of a module over the items of its text.

ghost use Rattle.std.specs.Prelude.{◌≡◌, ◌+◌, ◌<◌, ◌≤◌, ◌^◌, length, IfSome, IfNone};
ghost use Rattle.elf_read.specs.Lists.{Each, IsFirstBreak, own_number};
ghost use Rattle.cfi_instr.specs.Words.{count_of};
ghost use Rattle.cfi_aux.specs.Extent.{byte_end};
ghost use Rattle.cfi_instr.specs.inner.Functions.{covers, is_own_item, is_code, has_code, is_well_formed, is_malformed, runs_off, falls_through};
ghost use Rattle.cfi_instr.specs.inner.Homes.{AreApart};
ghost use Rattle.cfi_instr.specs.Functions.{byte_end_before, IsFormedBehind, EndsInPadding, EndsInJump};
ghost use Rattle.cfi_instr.specs.Fault.{IsFirstMalformed};

use crate::home::are_together;
use crate::insns::{is_nop, is_unlinked};
use crate::source::Source;
use cfi_aux::Function;

/// Where a function ends.
pub(crate) fn end_of(function: &Function) -> usize
    ensures { result ≡ byte_end function.now }
{
    function.offset as usize + function.length as usize
}

/// Whether the offset is in the function.
pub(crate) fn covers(offset: usize, function: &Function) -> bool
    ensures { result ≡ covers offset function.now }
{
    function.offset as usize <= offset && offset < end_of(function)
}

// Where the function before number k ends; 0 before the first.
fn end_before(functions: &[Function], k: usize) -> usize
    ensures { result ≡ byte_end_before functions.now k }
{
    if k == 0 {
        return 0;
    }
    match functions.get(k - 1) {
        Some(function) => end_of(function),
        None => 0,
    }
}

impl Source {
    /// Whether the offset begins an item that is in one function with another offset.
    pub(crate) fn is_own_item(&self, functions: &[Function], at: usize, offset: usize) -> bool
        requires { AreApart functions.now }
        ensures { result ≡ is_own_item self.now functions.now at offset }
    {
        self.is_item_at(offset) && are_together(functions, at, offset)
    }

    // Whether an item that is not `addi x0,x0,0` begins at the word.
    fn is_code(&self, w: usize) -> bool
        requires { w < 2 ^ 62 }
        ensures { result ≡ is_code self.now w }
    {
        let nop = match self.insn_at(w) {
            Some(insn) => is_nop(insn),
            None => false,
        };
        self.is_item(w) && !nop
    }

    // Whether there is one from offset a to offset b.
    fn has_code(&self, a: usize, b: usize) -> bool
        ensures { result ≡ has_code self.now a b }
    {
        for w in a / 4..b / 4 {
            if self.is_code(w) {
                return true;
            }
        }
        false
    }

    // Whether a function is well formed, after another that ends at `before`.
    fn is_well_formed(&self, before: usize, function: &Function) -> bool
        requires { count_of self.now < 2 ^ 62 }
        ensures { result ≡ is_well_formed self.now before function.now }
    {
        let offset = function.offset as usize;
        let end = end_of(function);
        function.length != 0
            && before <= offset
            && end <= 4 * self.count()
            && self.is_item_at(offset)
            && self.is_bound_at(end)
            && !self.has_code(before, offset)
    }

    // Whether function k is malformed; after the last one, whether the rest of the text is.
    fn is_malformed(&self, functions: &[Function], k: usize) -> bool
        requires { count_of self.now < 2 ^ 62 }
        ensures { result ≡ is_malformed self.now functions.now k }
    {
        let before = end_before(functions, k);
        match functions.get(k) {
            Some(function) => !self.is_well_formed(before, function),
            None => self.has_code(before, 4 * self.count()),
        }
    }

    /// The first function that is malformed; their number stands for what is after the last one.
    pub(crate) fn first_malformed(&self, functions: &[Function]) -> Option<usize>
        requires count { count_of self.now < 2 ^ 62 }
        requires few { length functions.now < 2 ^ 32 }
        ensures some { IfSome result (IsFirstMalformed self.now functions.now) }
        ensures within { IfSome result (λ k. k ≤ length functions.now) }
        ensures none { IfNone result (Each functions.now (IsFormedBehind self.now functions.now)) }
        ensures padding { IfNone result (EndsInPadding self.now functions.now) }
    {
        for k in 0..functions.len() + 1 {
            if self.is_malformed(functions, k) {
                return Some(k);
            }
        }
        None
    }

    // Whether the last item of a function is no jump without link.
    fn runs_off(&self, function: &Function) -> bool
        ensures { result ≡ runs_off self.now function.now }
    {
        match self.insn_at((end_of(function) / 4).saturating_sub(1)) {
            Some(insn) => !is_unlinked(insn),
            None => true,
        }
    }

    // Whether function k falls through.
    fn falls_through(&self, functions: &[Function], k: usize) -> bool
        ensures { result ≡ falls_through self.now functions.now k }
    {
        match functions.get(k) {
            Some(function) => self.runs_off(function),
            None => false,
        }
    }

    /// The first function whose last item is no jump without link.
    pub(crate) fn first_falling(&self, functions: &[Function]) -> Option<usize>
        ensures some { IfSome result (IsFirstBreak functions.now own_number (EndsInJump self.now)) }
        ensures within { IfSome result (λ k. k < length functions.now) }
        ensures none { IfNone result (Each functions.now (EndsInJump self.now)) }
    {
        for k in 0..functions.len() {
            if self.falls_through(functions, k) {
                return Some(k);
            }
        }
        None
    }
}
