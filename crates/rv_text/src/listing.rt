//! The listing of words.

ghost use Rattle.std.specs.Prelude.{◌≡◌, ◌++◌, ◌+◌, ◌*◌, ◌^◌, ◌<◌, ◌≤◌, List, Option, OnOk, OnErr, length, drop};
ghost use Rattle.cfi_unit.specs.declared.unit.Unit.{Unit as CodeUnit};
ghost use Rattle.rv_text.specs.Listing.{mark_of, IsPieceAt, ReadAs, line_of, plain_lines, marked_lines, listing_of, IsListing, AppendsPart};

use crate::text::put_word;
use cfi_text::put_hex8;
use cfi_unit::{Unit, next_unit};
use std::alloc::AllocError;

// The mark of a unit of several words, and no text for one of one word.
fn mark_of(unit: &Unit) -> &'static str
    ensures { result.now ≡ mark_of unit.now }
{
    match *unit {
        Unit::Load { .. } => " load",
        Unit::Store { .. } => " store",
        Unit::Check { .. } => " check",
        _ => "",
    }
}

// Appends the line of a word.
fn put_line(out: &mut Vec<u8>, word: u32, offset: u32, mark: &str) -> Result<(), AllocError>
    ensures { OnOk result (out.new.items ≡ out.old.items ++ line_of word offset mark.now) }
{
    put_word(out, word)?;
    out.extend_from_slice(b" # ")?;
    put_hex8(out, offset)?;
    out.extend_from_slice(mark.as_bytes())?;
    out.push(b'\n')?;
    Ok(())
}

// Appends the lines of so many words without a mark, from a place on.
fn put_plain(out: &mut Vec<u8>, words: &[u32], at: u32, count: u32) -> Result<(), AllocError>
    requires within { at + count ≤ length words.now }
    requires fits { 4 * length words.now < 2 ^ 32 }
    ensures { OnOk result (out.new.items ≡ out.old.items ++ plain_lines words.now at count) }
{
    for k in at..at + count {
        put_line(out, words[k as usize], 4 * k, "")?;
    }
    Ok(())
}

// Appends the lines of a piece of so many words, whose first has this mark.
fn put_piece(
    out: &mut Vec<u8>,
    words: &[u32],
    at: u32,
    mark: &str,
    size: u32,
) -> Result<(), AllocError>
    requires some { 0 < size }
    requires within { at + size ≤ length words.now }
    requires fits { 4 * length words.now < 2 ^ 32 }
    ensures { OnOk result
        (out.new.items ≡ out.old.items ++ marked_lines words.now at mark.now size) }
{
    put_line(out, words[at as usize], 4 * at, mark)?;
    put_plain(out, words, at + 1, size - 1)
}

// The piece that is read at a place, its mark and its number of words: a unit, or one word where none begins.
fn piece_at(words: &[u32], at: u32) -> (&'static str, u32)
    requires within { at < length words.now }
    ensures { IsPieceAt words.now at result.0.now result.1 }
{
    match next_unit(words, at) {
        Some((unit, size)) => (mark_of(&unit), size),
        None => ("", 1),
    }
}

/// Appends the listing of words, whose bytes are fewer than 2^32.
///
/// The first line is `.text`. Then each word has a line: its text as `print` gives it, or `.word 0x` and eight digits
/// where it is no instruction; ` # ` and the word's offset in bytes, in eight lower-case hexadecimal digits; and
/// ` check`, ` load` or ` store` where such a unit begins, units being read from the start and one word where none
/// begins. Each line is ended by a line feed. Where memory is wanting, the first bytes of the listing were appended.
pub fn list(words: &[u32], out: &mut Vec<u8>) -> Result<(), AllocError>
    requires fits { 4 * length words.now < 2 ^ 32 }
    ensures ok { OnOk result (IsListing words.now (drop (length out.old.items) out.new.items)) }
    ensures only { (pieces : List (Option CodeUnit)) → ReadAs words.now 0 pieces →
        OnOk result (out.new.items ≡ out.old.items ++ listing_of words.now pieces) }
    ensures part { (pieces : List (Option CodeUnit)) → ReadAs words.now 0 pieces →
        OnErr result (AppendsPart out.old.items out.new.items (listing_of words.now pieces)) }
{
    out.extend_from_slice(b".text\n")?;
    let mut lines = Vec::new(*out.allocator());
    let mut at = 0;
    while at < words.len() as u32 {
        let (mark, size) = piece_at(words, at);
        lines.clear();
        put_piece(&mut lines, words, at, mark, size)?;
        out.extend_from_slice(&lines)?;
        at += size;
    }
    Ok(())
}
