//! Decimal numbers.
ghost use Rattle.std.specs.Prelude.{◌≡◌, ◌++◌, ◌+◌, ◌-◌, ◌*◌, ◌^◌, ◌<◌, ◌≤◌, drop, IfSome, IfNone, OnSome, OnOk, OnErr, ℕ, Some};
ghost use Rattle.std.specs.Int.{IsInRange};
ghost use Rattle.cfi_text.specs.Decimal.{AreDigits, place_value, IsDecimal, dec_text, number_in, small_number_in};

use std::alloc::AllocError;

/// The most digits of a number of 64 bits.
const MAX_DIGITS: usize = 20;

/// The number whose decimal spelling the word is.
///
/// `None` where the word is no 1 to 20 digits without a leading zero (`0` itself is taken), or where
/// the number is above `u64::MAX`.
pub fn read_dec(word: &[u8]) -> Option<u64>
    ensures some { IfSome result (λ value. IsDecimal word.now value) }
    ensures only { (value : ℕ) → value < 2 ^ 64 → IsDecimal word.now value → result ≡ Some value }
    ensures number { result ≡ number_in word.now }
{
    let has_zero_ahead = word.len() > 1 && word[0] == b'0';
    if word.is_empty() || has_zero_ahead {
        return None;
    }
    value_of(word)
}

/// The number of 32 bits whose decimal spelling the word is. `None` where `read_dec` has none or a greater one.
#[tactic(auto, unfolding(crate::specs::Decimal::small_number_in))]
pub fn read_small_dec(word: &[u8]) -> Option<u32>
    ensures { result ≡ small_number_in word.now }
{
    let number = read_dec(word)?;
    u32::try_from(number).ok()
}

// The number that digits stand for.
fn value_of(word: &[u8]) -> Option<u64>
    ensures fits { IfSome result (λ value. value < 2 ^ 64) }
    ensures digits { OnSome result (AreDigits word.now) }
    ensures some { IfSome result (λ value. place_value word.now ≡ value) }
    ensures only { AreDigits word.now → place_value word.now < 2 ^ 64 →
        result ≡ Some (place_value word.now) }
{
    let mut value = 0u64;
    for c in word {
        if !c.is_ascii_digit() {
            return None;
        }
        let Some(more) = with_digit(value, *c) else {
            return None;
        };
        value = more;
    }
    Some(value)
}

// The number with one digit more at its end.
fn with_digit(value: u64, digit: u8) -> Option<u64>
    requires { IsInRange 48 57 digit }
    ensures some { IfSome result (λ more. more ≡ value * 10 + (digit - 48)) }
    ensures none { IfNone result (2 ^ 64 ≤ value * 10 + (digit - 48)) }
{
    let units = u64::from(digit - b'0');
    if value > (u64::MAX - units) / 10 {
        return None;
    }
    Some(value * 10 + units)
}

/// Appends the decimal spelling of the value, which `read_dec` reads.
///
/// Where no memory is left, it appends nothing.
pub fn put_dec(out: &mut Vec<u8>, value: u64) -> Result<(), AllocError>
    ensures ok { OnOk result (out.new.items ≡ out.old.items ++ dec_text value) }
    ensures err { OnErr result (out.new.items ≡ out.old.items) }
    ensures spelled { IsDecimal (dec_text value) value }
{
    let mut digits = [b'0'; MAX_DIGITS];
    let first = spell(value, &mut digits);
    out.extend_from_slice(&digits[first..])
}

// Writes the digits of the value up to the end, and answers where the first one stands.
fn spell(value: u64, digits: &mut [u8; MAX_DIGITS]) -> usize
    ensures within { result ≤ 20 }
    ensures text { drop result digits.new ≡ dec_text value }
{
    let mut left = value;
    let mut at = MAX_DIGITS - 1;
    while left >= 10 {
        digits[at] = b'0' + (left % 10) as u8;
        left /= 10;
        at -= 1;
    }
    digits[at] = b'0' + left as u8;
    at
}
