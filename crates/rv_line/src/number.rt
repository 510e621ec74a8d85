//! Numbers of a source.

ghost use Rattle.std.specs.Prelude.{◌≡◌, ◌+◌, ◌*◌, ◌^◌, ◌<◌, ◌≤◌, length, Some, IfSome};
ghost use Rattle.rv_line.specs.Number.{hex_digit_in, with_digits, hex_in, negative_in, integer_in};

use cfi_text::{read_dec, read_small_dec};

/// How far below zero the least number of a source is.
const LEAST: u64 = 2_147_483_648;

// The number of a hexadecimal digit.
fn hex_digit_of(byte: u8) -> Option<u8>
    ensures digit { result ≡ hex_digit_in byte }
    ensures small { IfSome result (λ digit. digit < 16) }
{
    match byte {
        b'0'..=b'9' => Some(byte - b'0'),
        b'a'..=b'f' => Some(byte - b'a' + 10),
        b'A'..=b'F' => Some(byte - b'A' + 10),
        _ => None,
    }
}

// The number that at most eight hexadecimal digits spell.
fn value_of(digits: &[u8]) -> Option<u64>
    requires { length digits.now ≤ 8 }
    ensures digits { result ≡ with_digits (Some 0) digits.now }
    ensures fits { IfSome result (λ value. value < 2 ^ 32) }
{
    let mut value = 0u64;
    for byte in digits {
        let Some(digit) = hex_digit_of(*byte) else {
            return None;
        };
        value = 16 * value + u64::from(digit);
    }
    Some(value)
}

// The number that 1 to 8 hexadecimal digits spell.
fn hex_of(digits: &[u8]) -> Option<u32>
    ensures { result ≡ hex_in digits.now }
{
    if digits.is_empty() || digits.len() > 8 {
        return None;
    }
    match value_of(digits) {
        Some(value) => Some(value as u32),
        None => None,
    }
}

// The number below zero that digits after a minus spell.
fn negative_of(digits: &[u8]) -> Option<i64>
    ensures { result ≡ negative_in digits.now }
{
    let number = read_dec(digits)?;
    if number <= LEAST {
        Some(-(number as i64))
    } else {
        None
    }
}

/// The number that a word spells, from -2^31 to 2^32 - 1. `None` where it spells none.
#[tactic(auto, unfolding(crate::specs::Number::integer_in))]
pub fn integer_of(word: &[u8]) -> Option<i64>
    ensures { result ≡ integer_in word.now }
{
    if word.starts_with(b"0x".as_slice()) {
        return hex_of(&word[2..]).map(i64::from);
    }
    if word.starts_with(b"-".as_slice()) {
        return negative_of(&word[1..]);
    }
    read_small_dec(word).map(i64::from)
}
