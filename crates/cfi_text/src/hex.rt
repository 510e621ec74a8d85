//! Hexadecimal numbers.
ghost use Rattle.std.specs.Prelude.{◌≡◌, ◌++◌, ◌^◌, ◌<◌, length, IfSome, OnOk, OnErr, ℕ, Some};
ghost use Rattle.cfi_text.specs.Hex.{hex_digit, hex_digits, hex8_text, hex_text, AppendsHexPrefix};

use std::alloc::AllocError;

/// The number whose spelling in eight lower-case hexadecimal digits the word is.
///
/// `None` where the word is no such spelling.
pub fn read_hex8(word: &[u8]) -> Option<u32>
    ensures some { IfSome result (λ value. word.now ≡ hex8_text value) }
    ensures only { (value : ℕ) → value < 2 ^ 32 → word.now ≡ hex8_text value → result ≡ Some value }
{
    if word.len() != 8 {
        return None;
    }
    let mut value = 0u64;
    for c in word {
        let Some(digit) = read_hex_digit(*c) else {
            return None;
        };
        value = value * 16 + u64::from(digit);
    }
    Some(value as u32)
}

/// The number, below 16, of a lower-case hexadecimal digit, and `None` where the byte is none.
pub fn read_hex_digit(c: u8) -> Option<u8>
    ensures some { IfSome result (λ digit. (digit < 16) × (hex_digit digit ≡ c)) }
    ensures only { (digit : ℕ) → digit < 16 → hex_digit digit ≡ c → result ≡ Some digit }
{
    match c {
        b'0'..=b'9' => Some(c - b'0'),
        b'a'..=b'f' => Some(c - b'a' + 10),
        _ => None,
    }
}

// The byte of a digit.
fn byte_of(digit: u8) -> u8
    requires { digit < 16 }
    ensures { result ≡ hex_digit digit }
{
    if digit < 10 {
        b'0' + digit
    } else {
        b'a' + (digit - 10)
    }
}

/// Appends the eight lower-case hexadecimal digits of the value, which `read_hex8` reads.
///
/// Where no memory is left, it appends nothing.
pub fn put_hex8(out: &mut Vec<u8>, value: u32) -> Result<(), AllocError>
    ensures ok { OnOk result (out.new.items ≡ out.old.items ++ hex8_text value) }
    ensures err { OnErr result (out.new.items ≡ out.old.items) }
{
    let mut digits = [b'0'; 8];
    let mut left = value;
    let mut at = 8;
    while at > 0 {
        at -= 1;
        digits[at] = byte_of((left % 16) as u8);
        left /= 16;
    }
    out.extend_from_slice(&digits)
}

/// Appends the bytes in two lower-case hexadecimal digits each.
///
/// Where no memory is left, it has appended those of the first bytes.
pub fn put_hex(out: &mut Vec<u8>, bytes: &[u8]) -> Result<(), AllocError>
    ensures ok { OnOk result (out.new.items ≡ out.old.items ++ hex_text bytes.now) }
    ensures part { OnErr result (AppendsHexPrefix out.old.items out.new.items bytes.now) }
{
    for byte in bytes {
        out.extend_from_slice(&[byte_of(*byte / 16), byte_of(*byte % 16)])?;
    }
    Ok(())
}
