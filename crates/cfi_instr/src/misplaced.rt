//! Misplaced relocations.

ghost use Rattle.std.specs.Prelude.{◌≡◌, ◌/◌, ◌<◌, ◌^◌, ℕ, List, length, slice_index_or, false, ◌||◌, IfSome, IfNone, IfOk};
ghost use Rattle.cfi_aux.specs.declared.records.Function.{Function};
ghost use Rattle.elf_read.specs.Lists.{Each, IsFirstBreak, own_number};
ghost use Rattle.cfi_instr.specs.Words.{count_of};
ghost use Rattle.cfi_instr.specs.Target.{named_symbol};
ghost use Rattle.cfi_instr.specs.Items.{item_of};
ghost use Rattle.cfi_instr.specs.Relocs.{IsRelocPlacedBehind};
ghost use Rattle.cfi_instr.specs.inner.Ends.{AreEnds};
ghost use Rattle.cfi_instr.specs.inner.Misplaced.{has_form, fits_on, is_on, sits_by, leads_to_bound, names_well, is_placed_by};

use crate::ends::{ends_of, is_before_end};
use crate::insns::{has_low, is_auipc, is_branch, is_jal, is_lui, is_store};
use crate::source::{Source, is_of_text};
use crate::target::{named_symbol, offset_from};
use cfi_aux::Function;
use elf_read::relocation::{
    BRANCH, HI20, JAL, LO12_I, LO12_S, PCREL_HI20, PCREL_LO12_I, PCREL_LO12_S, is_of_pair,
};
use elf_read::{Place, Reloc, Symbol};
use rv_insn::Insn;
use std::alloc::{AllocError, Global};

// Whether an instruction has the form of a kind of relocation.
fn has_form(kind: u32, insn: Insn) -> bool
    ensures { result ≡ has_form kind insn }
{
    (kind == BRANCH && is_branch(insn))
        || (kind == JAL && is_jal(insn))
        || (kind == PCREL_HI20 && is_auipc(insn))
        || (kind == HI20 && is_lui(insn))
        || ((kind == PCREL_LO12_I || kind == LO12_I) && has_low(insn))
        || ((kind == PCREL_LO12_S || kind == LO12_S) && is_store(insn))
}

impl Source {
    // Whether what stands at the word has the form of a kind: a pair, or an instruction.
    fn fits_on(&self, kind: u32, w: usize) -> bool
        requires { w < 2 ^ 62 }
        ensures { result ≡ fits_on self.now kind w }
    {
        if is_of_pair(kind) {
            return self.is_pair(w);
        }
        match self.insn_at(w) {
            Some(insn) => has_form(kind, insn),
            None => false,
        }
    }

    // Whether a relocation of the text sits well: on its form, in a function, of which `ends` tells, and on an item that
    // no earlier one is on.
    fn sits_well(&self, ends: &[usize], marked: &[bool], reloc: &Reloc) -> bool
        ensures { (functions : List Function) →
            AreEnds functions (count_of self.now) ends.now →
            result ≡ sits_by self.now functions
            (slice_index_or marked.now (item_of self.now (reloc.now.offset / 4)) false) reloc.now }
    {
        if !self.fits_on(reloc.kind, (reloc.offset / 4) as usize) {
            return false;
        }
        let w = self.item_of((reloc.offset / 4) as usize);
        let earlier = marked.get(w).copied().unwrap_or(false);
        is_before_end(ends, w) && !earlier
    }

    // Whether a symbol of the text, and an addend, lead to an item's start or the text's end.
    fn leads_to_bound(&self, place: Place, value: u32, addend: i32) -> bool
        ensures { result ≡ leads_to_bound self.now place value addend }
    {
        match place {
            Place::Text => match offset_from(value, addend) {
                Some(offset) => self.is_bound_at(offset),
                None => false,
            },
            Place::Undefined | Place::Absolute | Place::Data => true,
        }
    }

    // Whether the symbol that a relocation names, if there is one, leads so.
    fn names_well(&self, symbols: &[Symbol], reloc: &Reloc) -> bool
        ensures { result
            ≡ names_well self.now (named_symbol symbols.now reloc.now) reloc.now.addend }
    {
        match named_symbol(symbols, reloc) {
            Some(symbol) => self.leads_to_bound(symbol.place, symbol.value, reloc.addend),
            None => true,
        }
    }

    // Whether a relocation is well placed, where the items that earlier ones are on are marked.
    fn is_placed(&self, symbols: &[Symbol], ends: &[usize], marked: &[bool], reloc: &Reloc) -> bool
        ensures { (functions : List Function) →
            AreEnds functions (count_of self.now) ends.now →
            result ≡ is_placed_by self.now symbols.now functions
            (slice_index_or marked.now (item_of self.now (reloc.now.offset / 4)) false) reloc.now }
    {
        let sits = !is_of_text(reloc.area) || self.sits_well(ends, marked, reloc);
        sits && self.names_well(symbols, reloc)
    }

    // Marks the item that a relocation of the text is on.
    fn mark(&self, marked: &mut Vec<bool>, reloc: &Reloc)
        requires { length marked.old.items ≡ count_of self.now }
        ensures len { length marked.new.items ≡ length marked.old.items }
        ensures marks { (w : ℕ) → slice_index_or marked.new.items w false
            ≡ (slice_index_or marked.old.items w false || is_on self.now w reloc.now) }
    {
        let w = self.item_of((reloc.offset / 4) as usize);
        if is_of_text(reloc.area) && w < marked.len() {
            marked[w] = true;
        }
    }

    /// The first relocation that is misplaced.
    pub(crate) fn first_misplaced(
        &self,
        alloc: Global,
        symbols: &[Symbol],
        functions: &[Function],
        relocs: &[Reloc],
    ) -> Result<Option<usize>, AllocError>
        ensures some { IfOk result (λ found. IfSome found (IsFirstBreak relocs.now own_number
            (IsRelocPlacedBehind self.now symbols.now functions.now relocs.now))) }
        ensures within { IfOk result (λ found. IfSome found (λ k. k < length relocs.now)) }
        ensures none { IfOk result (λ found. IfNone found
            (Each relocs.now (IsRelocPlacedBehind self.now symbols.now functions.now relocs.now))) }
    {
        let ends = ends_of(alloc, functions, self.count())?;
        let mut marked = vec![in alloc; false; self.count()]?;
        for (k, reloc) in relocs.iter().enumerate() {
            if !self.is_placed(symbols, &ends, &marked, reloc) {
                return Ok(Some(k));
            }
            self.mark(&mut marked, reloc);
        }
        Ok(None)
    }
}
