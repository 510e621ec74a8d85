//! The operands of a statement.

ghost use Rattle.std.specs.Prelude.{◌≡◌, ◌<◌, length, position, Some, None, [], ◌∷◌, MatchOption, IfOk, IfSome, option_and_then};
ghost use Rattle.cfi_text.specs.Words.{words_in};
ghost use Rattle.cfi_text.specs.Names.{name_in};
ghost use Rattle.rv_line.specs.Number.{integer_in};
ghost use Rattle.rv_line.specs.Operand.{word_in, is_byte, cut, operands_in, no_operands, one, two, three};
ghost use Rattle.rv_line.specs.Register.{register_in};

use crate::number::integer_of;
use crate::register::{Register, register_of};
use cfi_text::{name_of, next_word};
use elf_read::Name;
use std::alloc::{AllocError, Global};

/// The only word of a text.
pub fn word_of(text: &[u8]) -> Option<&[u8]>
    ensures { MatchOption result (word_in text.now ≡ None)
        (λ word. word_in text.now ≡ Some word.now) }
{
    let Some((word, rest)) = next_word(text) else {
        return None;
    };
    if next_word(rest).is_some() {
        return None;
    }
    Some(word)
}

/// What stands before the first such byte, and what after it.
#[tactic(auto, unfolding(crate::specs::Operand::cut))]
pub fn cut_at(text: &[u8], byte: u8) -> Option<(&[u8], &[u8])>
    ensures { MatchOption result (cut byte text.now ≡ None)
        (λ parts. cut byte text.now ≡ Some (parts.0.now, parts.1.now)) }
{
    match place_of(text, byte) {
        Some(at) => Some((&text[..at], &text[at + 1..])),
        None => None,
    }
}

// Where such a byte stands first.
fn place_of(text: &[u8], byte: u8) -> Option<usize>
    ensures place { result ≡ position (is_byte byte) text.now }
    ensures within { IfSome result (λ place. place < length text.now) }
{
    text.iter().position(|other| *other == byte)
}

// What stands before the first comma, and what after it. `None` where there is none.
fn at_comma(text: &[u8]) -> Option<(&[u8], &[u8])>
    ensures { MatchOption result (operands_in text.now ≡ words_in text.now ∷ [])
        (λ parts. operands_in text.now ≡ words_in parts.0.now ∷ operands_in parts.1.now) }
{
    cut_at(text, b',')
}

/// Whether a text has no operand.
pub fn has_none(text: &[u8]) -> bool
    ensures { result ≡ no_operands (operands_in text.now) }
{
    match at_comma(text) {
        Some(_) => false,
        None => next_word(text).is_none(),
    }
}

/// What stands where a statement has an operand.
pub trait Operand: Sized + Drop {
    ghost use Rattle.std.specs.Prelude.{ℕ, List, Option};

    ghost read: { List ℕ → Option Self };

    /// The operand that a word is. `None` where it is none.
    fn of_word(alloc: Global, word: &[u8]) -> Result<Option<Self>, AllocError>
        ensures { IfOk result (λ found. found ≡ read word.now) };
}

// The operand that is the only word of a text.
fn alone_of<A: Operand>(alloc: Global, text: &[u8]) -> Result<Option<A>, AllocError>
    ensures { IfOk result (λ found. found ≡ option_and_then A.read (word_in text.now)) }
{
    match word_of(text) {
        Some(word) => A::of_word(alloc, word),
        None => Ok(None),
    }
}

/// One operand.
pub fn one_of<A: Operand>(alloc: Global, text: &[u8]) -> Result<Option<A>, AllocError>
    ensures { IfOk result (λ found. found ≡ one A.read (operands_in text.now)) }
{
    match at_comma(text) {
        Some(_) => Ok(None),
        None => alone_of(alloc, text),
    }
}

/// Two operands.
pub fn two_of<A: Operand, B: Operand>(
    alloc: Global,
    text: &[u8],
) -> Result<Option<(A, B)>, AllocError>
    ensures { IfOk result (λ found. found ≡ two A.read B.read (operands_in text.now)) }
{
    let Some((first, second)) = at_comma(text) else {
        return Ok(None);
    };
    let Some(first) = alone_of(alloc, first)? else {
        return Ok(None);
    };
    match one_of(alloc, second)? {
        Some(second) => Ok(Some((first, second))),
        None => Ok(None),
    }
}

/// Three operands.
pub fn three_of<A: Operand, B: Operand, C: Operand>(
    alloc: Global,
    text: &[u8],
) -> Result<Option<(A, B, C)>, AllocError>
    ensures { IfOk result (λ found. found ≡ three A.read B.read C.read (operands_in text.now)) }
{
    let Some((first, others)) = at_comma(text) else {
        return Ok(None);
    };
    let Some(first) = alone_of(alloc, first)? else {
        return Ok(None);
    };
    match two_of(alloc, others)? {
        Some((second, third)) => Ok(Some((first, second, third))),
        None => Ok(None),
    }
}

impl Operand for Register {
    ghost read = { register_in };

    fn of_word(_alloc: Global, word: &[u8]) -> Result<Option<Register>, AllocError> {
        Ok(register_of(word))
    }
}

impl Operand for i64 {
    ghost read = { integer_in };

    fn of_word(_alloc: Global, word: &[u8]) -> Result<Option<i64>, AllocError> {
        Ok(integer_of(word))
    }
}

impl Operand for Name {
    ghost read = { name_in };

    fn of_word(alloc: Global, word: &[u8]) -> Result<Option<Name>, AllocError> {
        name_of(alloc, word)
    }
}
