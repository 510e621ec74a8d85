//! Where the units of a module's items go.

ghost use Rattle.std.specs.Prelude.{◌≡◌, ◌*◌, ◌<◌, ◌≤◌, ◌^◌, slice_index, IfOk, IfErr};
ghost use Rattle.cfi_instr.specs.Words.{count_of};
ghost use Rattle.cfi_instr.specs.declared.sizes.TheConstants.{CHECK_WORDS, MAX_WORDS};
ghost use Rattle.cfi_instr.specs.Sizes.{is_long, item_size, size_at, words_before, moved, offsets_of, AreSmall, IsOver};

use crate::fault::InstrFault;
use crate::source::Source;
use rv_insn::Insn;
use std::alloc::Global;

/// Words of a masked load or store.
pub const ACCESS_WORDS: u32 = cfi_word::sizes::ACCESS_WORDS as u32;

/// Words of a check.
pub const CHECK_WORDS: u32 = cfi_word::sizes::CHECK_WORDS as u32;

/// Words of a long branch: the inverse branch, and a jump.
pub const LONG_WORDS: u32 = 2;

/// The output has at most so many words, as the text of each object.
pub const MAX_WORDS: u32 = cfi_word::limits::MAX_WORDS as u32;

/// The bytes of so many words.
pub const MAX_BYTES: u32 = 4 * MAX_WORDS;

/// A branch leads at most so many bytes back.
pub const REACH_BACK: u32 = 4_096;

/// A branch leads at most so many bytes on.
pub const REACH_ON: u32 = 4_092;

/// Whether the branch at the word is long.
pub fn is_long(long: &[bool], w: usize) -> bool
    ensures { result ≡ is_long long.now w }
{
    match long.get(w) {
        Some(long) => *long,
        None => false,
    }
}

// The words of an instruction's unit.
fn item_size(long: bool, insn: Insn) -> u32
    ensures same { result ≡ item_size long insn }
    ensures small { result ≤ CHECK_WORDS }
{
    match insn {
        Insn::Load { .. } | Insn::Store { .. } => ACCESS_WORDS,
        Insn::Jalr { .. } => CHECK_WORDS,
        Insn::Branch { .. } => { if long { LONG_WORDS } else { 1 } }
        _ => 1,
    }
}

// The words that a word of the input becomes.
#[tactic(auto, unfolding(crate::specs::Sizes::size_at))]
fn size_at(source: &Source, long: &[bool], w: usize) -> u32
    requires { w < 2 ^ 62 }
    ensures same { result ≡ size_at source.now long.now w }
    ensures small { result ≤ CHECK_WORDS }
{
    if source.is_inner(w) {
        return 0;
    }
    match source.insn_at(w) {
        Some(insn) => item_size(is_long(long, w), insn),
        None => 0,
    }
}

/// The offset in the output of each word's unit, and of the output's end.
///
/// `TooLong` where the output would have more than `MAX_WORDS` words.
pub fn offsets_of(alloc: Global, source: &Source, long: &[bool]) -> Result<Vec<u32>, InstrFault>
    requires { 4 * count_of source.now < 2 ^ 32 }
    ensures ok { IfOk result (λ offsets. offsets.items ≡ offsets_of source.now long.now) }
    ensures small { IfOk result (λ offsets. AreSmall offsets.items) }
    ensures fits { IfOk result (λ _. words_before source.now long.now (count_of source.now)
        ≤ MAX_WORDS) }
    ensures fault { IfErr result (IsOver source.now long.now) }
{
    let count = source.count();
    let mut offsets = Vec::with_capacity(alloc, count + 1)?;
    let mut place = 0;
    offsets.push(0)?;
    for w in 0..count {
        place += size_at(source, long, w);
        if place > MAX_WORDS {
            return Err(InstrFault::TooLong);
        }
        offsets.push(4 * place)?;
    }
    Ok(offsets)
}

/// The offset of the unit of a word, 0 past the end.
pub fn offset_at(offsets: &[u32], w: usize) -> u32
    ensures { result ≡ slice_index offsets.now w }
{
    match offsets.get(w) {
        Some(offset) => *offset,
        None => 0,
    }
}

/// Where an offset of the input goes.
pub fn moved(source: &Source, offsets: &[u32], offset: usize) -> u32
    ensures { result ≡ moved source.now offsets.now offset }
{
    offset_at(offsets, source.item_of(offset / 4))
}
