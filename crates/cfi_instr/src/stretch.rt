//! Branches that others push out of their reach.

ghost use Rattle.std.specs.Prelude.{◌≡◌, ◌*◌, ◌<◌, ◌^◌, ℕ, List, Bool, length, get_or, IfOk, OnOk};
ghost use Rattle.elf_read.specs.declared.object.Symbol.{Symbol};
ghost use Rattle.cfi_instr.specs.Words.{Words, count_of};
ghost use Rattle.cfi_instr.specs.declared.hops.Hop.{Hop};
ghost use Rattle.cfi_instr.specs.Sizes.{offsets_of, AreSmall};
ghost use Rattle.cfi_instr.specs.Reach.{IsEnough, IsWithin};
ghost use Rattle.cfi_instr.specs.inner.Hops.{AreReady, StaysOrLoses};

use crate::hops::{Hop, after_growth, hops_of};
use crate::sizes::{LONG_WORDS, MAX_WORDS, REACH_BACK};
use crate::source::Source;
use elf_read::Symbol;
use std::alloc::{AllocError, Global};

/// A branch that goes over another and still reaches its target is at most so many branches from it, since each branch
/// has a word.
const NEAR: usize = (REACH_BACK / 4) as usize;

/// With so many long branches the output has too many words.
const ENOUGH: usize = (MAX_WORDS / LONG_WORDS + 1) as usize;

// The branches that are out of their reach.
fn out_of_reach(alloc: Global, hops: &[Hop]) -> Result<Vec<usize>, AllocError> {
    let mut out = Vec::new(alloc);
    for (number, hop) in hops.iter().enumerate() {
        if hop.left == 0 {
            out.push(number)?;
        }
    }
    Ok(out)
}

// Notes a branch that has just got out of its reach.
fn note(out: &mut Vec<usize>, before: Hop, after: Hop, number: usize) -> Result<(), AllocError> {
    if after.left == 0 && before.left != 0 {
        out.push(number)?;
    }
    Ok(())
}

// Takes a word from what is left of each branch that goes over a word, that of the branch of a number, which got one
// word more; notes those that are out of their reach by it.
fn push_others(
    hops: &mut Vec<Hop>,
    number: usize,
    word: u32,
    out: &mut Vec<usize>,
) -> Result<(), AllocError>
    requires { number < length hops.old.items }
    ensures size { OnOk result (length hops.new.items ≡ length hops.old.items) }
    ensures each { OnOk result ((k : ℕ) (d : Hop) → k < length hops.old.items →
        StaysOrLoses word (get_or hops.old.items k d) (get_or hops.new.items k d)) }
{
    let end = hops.len().min(number + NEAR + 1);
    for k in number.saturating_sub(NEAR)..end {
        let hop = hops[k];
        let next = after_growth(hop, word);
        hops[k] = next;
        note(out, hop, next, k)?;
    }
    Ok(())
}

// Makes a branch long that is out of its reach, which pushes others.
fn lengthen(
    hops: &mut Vec<Hop>,
    number: usize,
    long: &mut Vec<bool>,
    out: &mut Vec<usize>,
) -> Result<(), AllocError>
    ensures { OnOk result ((t : Words) (symbols : List Symbol) →
        AreReady t symbols hops.old.items long.old.items →
        AreReady t symbols hops.new.items long.new.items) }
{
    if number >= hops.len() {
        return Ok(());
    }
    let hop = hops[number];
    let at = hop.at as usize;
    if hop.left != 0 || at >= long.len() || long[at] {
        return Ok(());
    }
    long[at] = true;
    push_others(hops, number, hop.at, out)
}

// Makes branches long that are out of their reach, and those that these push out of theirs, until none is left or the
// output has too many words by them alone.
fn lengthen_all(
    hops: &mut Vec<Hop>,
    long: &mut Vec<bool>,
    out: &mut Vec<usize>,
) -> Result<(), AllocError>
    ensures { OnOk result ((t : Words) (symbols : List Symbol) →
        AreReady t symbols hops.old.items long.old.items →
        AreReady t symbols hops.new.items long.new.items) }
{
    for _turn in 0..hops.len().min(ENOUGH) {
        match out.pop() {
            Some(number) => lengthen(hops, number, long, out)?,
            None => return Ok(()),
        }
    }
    Ok(())
}

/// Makes branches long that do not reach their targets, and those that these push out of reach, and so on.
///
/// Only what is long in each set that is enough gets long. Each branch that gets long is looked at beside the branches
/// that may go over it, a bounded number.
pub fn stretch(
    alloc: Global,
    source: &Source,
    symbols: &[Symbol],
    offsets: &[u32],
    long: &mut Vec<bool>,
) -> Result<(), AllocError>
    requires count { 4 * count_of source.now < 2 ^ 32 }
    requires small { AreSmall offsets.now }
    requires size { length long.old.items ≡ count_of source.now }
    requires placed { offsets.now ≡ offsets_of source.now long.old.items }
    requires within { (other : List Bool) → IsEnough source.now symbols.now other →
        IsWithin long.old.items other }
    ensures size { OnOk result (length long.new.items ≡ count_of source.now) }
    ensures within { OnOk result ((other : List Bool) → IsEnough source.now symbols.now other →
        IsWithin long.new.items other) }
{
    let mut hops = hops_of(alloc, source, symbols, offsets)?;
    let mut out = out_of_reach(alloc, &hops)?;
    lengthen_all(&mut hops, long, &mut out)
}
