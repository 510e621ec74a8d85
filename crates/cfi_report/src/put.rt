ghost use Rattle.std.specs.Prelude.{◌≡◌, ◌++◌, ◌∷◌, [], OnOk};
ghost use Rattle.cfi_text.specs.Decimal.{dec_text};
ghost use Rattle.cfi_text.specs.Hex.{hex8_text};
ghost use Rattle.cfi_report.specs.Line.{bytes_text};

use cfi_text::{put_dec, put_hex, put_hex8};
use std::alloc::AllocError;

/// Appends bytes.
pub fn put(out: &mut Vec<u8>, bytes: &[u8]) -> Result<(), AllocError>
    ensures { OnOk result (out.new.items ≡ out.old.items ++ bytes.now) }
{
    out.extend_from_slice(bytes)
}

/// Appends a space and a word.
pub fn put_word(out: &mut Vec<u8>, word: &[u8]) -> Result<(), AllocError>
    ensures { OnOk result (out.new.items ≡ out.old.items ++ 32 ∷ word.now) }
{
    out.push(b' ')?;
    out.extend_from_slice(word)
}

/// Appends a space and a number in decimal.
pub fn put_number(out: &mut Vec<u8>, number: u32) -> Result<(), AllocError>
    ensures { OnOk result (out.new.items ≡ out.old.items ++ 32 ∷ dec_text number) }
{
    out.push(b' ')?;
    put_dec(out, u64::from(number))
}

/// Appends a space and an address in eight hexadecimal digits.
pub fn put_address(out: &mut Vec<u8>, address: u32) -> Result<(), AllocError>
    ensures { OnOk result (out.new.items ≡ out.old.items ++ 32 ∷ hex8_text address) }
{
    out.push(b' ')?;
    put_hex8(out, address)
}

/// Appends a space and bytes in two hexadecimal digits each, or a dash for none.
pub fn put_bytes(out: &mut Vec<u8>, bytes: &[u8]) -> Result<(), AllocError>
    ensures { OnOk result (out.new.items ≡ out.old.items ++ 32 ∷ bytes_text bytes.now) }
{
    out.push(b' ')?;
    match bytes {
        [] => out.extend_from_slice(b"-"),
        _ => put_hex(out, bytes),
    }
}

/// Appends the end of a line.
pub fn put_end(out: &mut Vec<u8>) -> Result<(), AllocError>
    ensures { OnOk result (out.new.items ≡ out.old.items ++ 10 ∷ []) }
{
    out.push(b'\n')?;
    Ok(())
}
