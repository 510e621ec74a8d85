ghost use Rattle.std.specs.Prelude.{◌≡◌, ℕ, ◌+◌, ◌<◌, ◌++◌, ◌∷◌, [], IfOk, IfSome, IfNone, MatchOption, Option};
ghost use Rattle.std.specs.List.{position};
ghost use Rattle.cfi_text.specs.Hex.{hex_digits};
ghost use Rattle.cfi_report.specs.inner.Form.{Lacks, spaced_words, hex_address, pairs_in, bytes_in};

use cfi_text::{read_hex_digit, read_hex8};
use cfi_values::Bytes;
use std::alloc::{AllocError, Global};

/// What stands before the first such byte, and what after it. `None` where there is none.
pub fn cut(text: &[u8], byte: u8) -> Option<(&[u8], &[u8])>
    ensures some { IfSome result (λ found. text.now ≡ found.0.now ++ byte ∷ found.1.now) }
    ensures first { IfSome result (λ found. Lacks byte found.0.now) }
    ensures none { IfNone result (Lacks byte text.now) }
{
    let at = text.iter().position(|other| *other == byte)?;
    Some((&text[..at], &text[at + 1..]))
}

/// The first word, and what comes after the space behind it, if there is one.
pub fn first_word(text: &[u8]) -> (&[u8], Option<&[u8]>)
    ensures { MatchOption result.1 (spaced_words text.now ≡ result.0.now ∷ [])
        (λ rest. spaced_words text.now ≡ result.0.now ∷ spaced_words rest.now) }
{
    match cut(text, b' ') {
        Some((word, rest)) => (word, Some(rest)),
        None => (text, None),
    }
}

/// The number of which the word is the spelling in eight hexadecimal digits.
pub fn address(word: &[u8]) -> Option<u32>
    ensures { result ≡ hex_address word.now }
{
    read_hex8(word)
}

/// The bytes that the word spells, of which a dash is for none.
#[tactic(auto, unfolding(crate::specs::inner::Form::bytes_in))]
pub fn bytes(alloc: Global, word: &[u8]) -> Result<Option<Bytes>, AllocError>
    ensures { IfOk result (λ found. found ≡ bytes_in word.now) }
{
    if word == b"-".as_slice() {
        return Ok(Some(Bytes::from_vec(Vec::new(alloc))));
    }
    if word.is_empty() {
        return Ok(None);
    }
    pairs(alloc, word)
}

// The bytes that the word spells in two digits each.
fn pairs(alloc: Global, word: &[u8]) -> Result<Option<Bytes>, AllocError>
    ensures { IfOk result (λ found. found ≡ pairs_in word.now) }
{
    let mut bytes = Vec::new(alloc);
    let mut rest = word;
    while let [high, low, after @ ..] = rest {
        let Some(byte) = pair(*high, *low) else {
            return Ok(None);
        };
        bytes.push(byte)?;
        rest = after;
    }
    if !rest.is_empty() {
        return Ok(None);
    }
    Ok(Some(Bytes::from_vec(bytes)))
}

// The byte of two digits.
fn pair(high: u8, low: u8) -> Option<u8>
    ensures some { IfSome result (λ byte. hex_digits 2 byte ≡ high ∷ low ∷ []) }
    ensures only { (byte : ℕ) → byte < 256 → hex_digits 2 byte ≡ high ∷ low ∷ [] →
        result ≡ Some byte }
{
    let high = read_hex_digit(high)?;
    let low = read_hex_digit(low)?;
    Some(16 * high + low)
}
