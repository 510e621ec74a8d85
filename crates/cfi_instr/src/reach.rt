//! The branches that must be long.

ghost use Rattle.std.specs.Prelude.{◌≡◌, ◌*◌, ◌<◌, ◌≤◌, ◌^◌, ℕ, List, Bool, not, ◌||◌, ◌&&◌, length, slice_set, IfOk, IfErr};
ghost use Rattle.std.specs.Bool.{OnTrue, OnFalse};
ghost use Rattle.cfi_instr.specs.Words.{count_of};
ghost use Rattle.cfi_instr.specs.declared.sizes.TheConstants.{MAX_WORDS};
ghost use Rattle.cfi_instr.specs.Sizes.{is_long, words_before, offsets_of, AreSmall};
ghost use Rattle.cfi_instr.specs.Reach.{target_of, is_near, reaches, branch_reaches, word_reaches, IsEnough, IsWithin, IsLeast, IsPassed, shorts};

use crate::fault::InstrFault;
use crate::sizes::{REACH_BACK, REACH_ON, is_long, offset_at, offsets_of};
use crate::source::Source;
use crate::stretch::stretch;
use crate::target::Aim;
use elf_read::Symbol;
use rv_insn::Insn;
use std::alloc::Global;

// Whether the displacement from one offset to another fits a branch.
fn is_near(from: u32, to: u32) -> bool
    ensures { result ≡ is_near from to }
{
    u64::from(to) <= u64::from(from) + u64::from(REACH_ON)
        && u64::from(from) <= u64::from(to) + u64::from(REACH_BACK)
}

/// The offset of the unit that a jump leads to.
pub fn target_of(offsets: &[u32], aim: Aim) -> u32
    ensures { result ≡ target_of offsets.now aim }
{
    match aim {
        Aim::Offset(offset) => offset_at(offsets, offset / 4),
        Aim::Name | Aim::Astray => 0,
    }
}

// Whether the unit at the word is near that of its target.
fn reaches(offsets: &[u32], w: usize, aim: Aim) -> bool
    ensures { result ≡ reaches offsets.now w aim }
{
    is_near(offset_at(offsets, w), target_of(offsets, aim))
}

// Whether an instruction, if it is a branch, reaches its target.
fn branch_reaches(
    source: &Source,
    symbols: &[Symbol],
    offsets: &[u32],
    w: usize,
    insn: Insn,
) -> bool
    requires { 4 * w < 2 ^ 32 }
    ensures { result ≡ branch_reaches source.now symbols.now offsets.now w insn }
{
    match insn {
        Insn::Branch { off, .. } => reaches(offsets, w, source.aim_of_jump(symbols, w, off)),
        _ => true,
    }
}

// Whether the word, if it is a branch, reaches its target.
fn word_reaches(source: &Source, symbols: &[Symbol], offsets: &[u32], w: usize) -> bool
    requires { 4 * w < 2 ^ 32 }
    ensures { result ≡ word_reaches source.now symbols.now offsets.now w }
{
    match source.insn_at(w) {
        Some(insn) => branch_reaches(source, symbols, offsets, w, insn),
        None => true,
    }
}

// Makes the branch at the word long where it does not reach its target; answers whether it was not long yet.
fn widen_at(
    source: &Source,
    symbols: &[Symbol],
    offsets: &[u32],
    long: &mut Vec<bool>,
    w: usize,
) -> bool
    requires word { 4 * w < 2 ^ 32 }
    requires within { w < length long.old.items }
    ensures wider { let reaches = word_reaches source.now symbols.now offsets.now w in
        long.new.items ≡ slice_set long.old.items w (is_long long.old.items w || not reaches) }
    ensures grew { let reaches = word_reaches source.now symbols.now offsets.now w in
        result ≡ (not (is_long long.old.items w) && not reaches) }
{
    let grows = !is_long(long, w) && !word_reaches(source, symbols, offsets, w);
    if grows {
        long[w] = true;
    }
    grows
}

// Makes each branch long that does not reach its target; answers whether one was not yet.
fn widen(source: &Source, symbols: &[Symbol], offsets: &[u32], long: &mut Vec<bool>) -> bool
    requires count { 4 * count_of source.now < 2 ^ 32 }
    requires size { length long.old.items ≡ count_of source.now }
    ensures size { length long.new.items ≡ count_of source.now }
    ensures each { (w : ℕ) → w < count_of source.now → is_long long.new.items w
        ≡ (is_long long.old.items w || not (word_reaches source.now symbols.now offsets.now w)) }
    ensures same { OnFalse result (long.new.items ≡ long.old.items) }
    ensures fewer { OnTrue result (shorts long.new.items < shorts long.old.items) }
{
    let mut grew = false;
    for w in 0..source.count() {
        if widen_at(source, symbols, offsets, long, w) {
            grew = true;
        }
    }
    grew
}

// Branches that are long in each set that is enough.
fn some_long(alloc: Global, source: &Source, symbols: &[Symbol]) -> Result<Vec<bool>, InstrFault>
    requires { 4 * count_of source.now < 2 ^ 32 }
    ensures size { IfOk result (λ long. length long.items ≡ count_of source.now) }
    ensures within { IfOk result (λ long. (other : List Bool) →
        IsEnough source.now symbols.now other → IsWithin long.items other) }
    ensures fault { IfErr result (IsPassed source.now symbols.now) }
{
    let mut long = vec![in alloc; false; source.count()]?;
    let offsets = offsets_of(alloc, source, &long)?;
    stretch(alloc, source, symbols, &offsets, &mut long)?;
    Ok(long)
}

/// Which branches are long, and the offset of each word's unit.
///
/// They are the least set for which all others reach their targets. It grows from some that are long in each set that
/// is enough, until it stands still: a round adds what they leave out, which is none. `TooLong` where the output would
/// be.
pub fn least_long(
    alloc: Global,
    source: &Source,
    symbols: &[Symbol],
) -> Result<(Vec<bool>, Vec<u32>), InstrFault>
    requires { 4 * count_of source.now < 2 ^ 32 }
    ensures least { IfOk result (λ plan. IsLeast source.now symbols.now plan.0.items) }
    ensures placed { IfOk result (λ plan. plan.1.items ≡ offsets_of source.now plan.0.items) }
    ensures small { IfOk result (λ plan. AreSmall plan.1.items) }
    ensures fits { IfOk result (λ plan.
        words_before source.now plan.0.items (count_of source.now) ≤ MAX_WORDS) }
    ensures fault { IfErr result (IsPassed source.now symbols.now) }
{
    let mut long = some_long(alloc, source, symbols)?;
    let mut offsets = offsets_of(alloc, source, &long)?;
    'rounds: while widen(source, symbols, &offsets, &mut long) {
        offsets = offsets_of(alloc, source, &long)?;
    }
    Ok((long, offsets))
}
