//! Branches, and how far each is from being out of its reach.

ghost use Rattle.std.specs.Prelude.{◌≡◌, ◌+◌, ◌-◌, ◌*◌, ◌/◌, ◌<◌, ◌^◌, ℕ, List, All, length, slice_index, false, Some, IfOk, IfSome};
ghost use Rattle.cfi_instr.specs.Words.{count_of, insn_at};
ghost use Rattle.cfi_instr.specs.Items.{is_inner};
ghost use Rattle.cfi_instr.specs.Sizes.{AreSmall};
ghost use Rattle.cfi_instr.specs.Reach.{target_of};
ghost use Rattle.cfi_instr.specs.inner.Hops.{is_over, after_growth, IsHop, HasLeft, IsMeasured};

use crate::sizes::{REACH_BACK, REACH_ON, offset_at};
use crate::source::Source;
use crate::target::Aim;
use elf_read::Symbol;
use rv_insn::Insn;
use std::alloc::{AllocError, Global};

/// A branch: its word, the word that it leads to, and how many words more between the two take it out of its reach.
#[derive(Clone, Copy, Debug, PartialEq, Eq)]
pub struct Hop {
    /// The word of the branch.
    pub at: u32,
    /// The word that it leads to, at most the number of words.
    pub to: u32,
    /// How many words more in the output take it out of its reach; 0 where it is.
    pub left: u32,
}

/// Whether a branch goes over the word: whether it gets longer where the word's unit does.
pub fn is_over(hop: Hop, word: u32) -> bool
    ensures { result ≡ is_over hop word }
{
    if hop.at <= word {
        word < hop.to
    } else {
        hop.to <= word
    }
}

/// A branch, after the unit of the word has got one word more.
pub fn after_growth(hop: Hop, word: u32) -> Hop
    ensures { result ≡ after_growth hop word }
{
    if is_over(hop, word) {
        Hop {
            left: hop.left.saturating_sub(1),
            ..hop
        }
    } else {
        hop
    }
}

// How many words more between two offsets take the second more than so many bytes past the first.
fn left_of(low: u32, high: u32, reach: u32) -> u32
    requires { low + reach + 4 < 2 ^ 32 }
    ensures { result ≡ (low + reach + 4 - high) / 4 }
{
    (low + reach + 4).saturating_sub(high) / 4
}

// The branch from one word to another.
fn hop_of(offsets: &[u32], at: u32, to: u32) -> Hop
    requires { AreSmall offsets.now }
    ensures at { result.at ≡ at }
    ensures to { result.to ≡ to }
    ensures left { HasLeft offsets.now result }
{
    let from = offset_at(offsets, at as usize);
    let target = offset_at(offsets, to as usize);
    let left = if at <= to {
        left_of(from, target, REACH_ON)
    } else {
        left_of(target, from, REACH_BACK)
    };
    Hop { at, to, left }
}

// The branch at the word, where it leads to a word or the end of the text.
fn hop_to(offsets: &[u32], at: u32, aim: Aim) -> Option<Hop>
    requires small { AreSmall offsets.now }
    requires size { length offsets.now < 2 ^ 32 }
    ensures at { IfSome result (λ hop. hop.at ≡ at) }
    ensures within { IfSome result (λ hop. hop.to < length offsets.now) }
    ensures leads { IfSome result (λ hop.
        (any : List ℕ) → target_of any aim ≡ slice_index any hop.to) }
    ensures left { IfSome result (HasLeft offsets.now) }
{
    match aim {
        Aim::Offset(offset) => {
            let to = offset / 4;
            if to < offsets.len() {
                Some(hop_of(offsets, at, to as u32))
            } else {
                None
            }
        }
        Aim::Name | Aim::Astray => None,
    }
}

// The branch at the word, whose instruction is this one, where it is a branch that leads to one.
fn hop_by(source: &Source, symbols: &[Symbol], offsets: &[u32], w: usize, insn: Insn) -> Option<Hop>
    requires word { 4 * w < 2 ^ 32 }
    requires within { w < count_of source.now }
    requires here { insn_at source.now w ≡ Some insn }
    requires outer { is_inner source.now w ≡ false }
    requires small { AreSmall offsets.now }
    requires size { length offsets.now ≡ count_of source.now + 1 }
    requires count { 4 * count_of source.now < 2 ^ 32 }
    ensures hop { IfSome result (IsHop source.now symbols.now) }
    ensures left { IfSome result (HasLeft offsets.now) }
{
    match insn {
        Insn::Branch { off, .. } => {
            hop_to(offsets, w as u32, source.aim_of_jump(symbols, w, off))
        }
        _ => None,
    }
}

// The branch at the word, where there is one that leads to a word or the end of the text.
fn hop_at(source: &Source, symbols: &[Symbol], offsets: &[u32], w: usize) -> Option<Hop>
    requires count { 4 * count_of source.now < 2 ^ 32 }
    requires within { w < count_of source.now }
    requires small { AreSmall offsets.now }
    requires size { length offsets.now ≡ count_of source.now + 1 }
    ensures hop { IfSome result (IsHop source.now symbols.now) }
    ensures left { IfSome result (HasLeft offsets.now) }
{
    if source.is_inner(w) {
        return None;
    }
    match source.insn_at(w) {
        Some(insn) => hop_by(source, symbols, offsets, w, insn),
        None => None,
    }
}

/// The branches of a text, in order; those that lead to no place of it are left out.
pub fn hops_of(
    alloc: Global,
    source: &Source,
    symbols: &[Symbol],
    offsets: &[u32],
) -> Result<Vec<Hop>, AllocError>
    requires count { 4 * count_of source.now < 2 ^ 32 }
    requires small { AreSmall offsets.now }
    requires size { length offsets.now ≡ count_of source.now + 1 }
    ensures { IfOk result (λ hops. All (IsMeasured source.now symbols.now offsets.now) hops.items) }
{
    let mut hops = Vec::new(alloc);
    for w in 0..source.count() {
        if let Some(hop) = hop_at(source, symbols, offsets, w) {
            hops.push(hop)?;
        }
    }
    Ok(hops)
}
