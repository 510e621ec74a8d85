ghost use Rattle.std.specs.Prelude.{◌≡◌, ◌+◌, ◌≤◌, length, drop};
ghost use Rattle.elf_read.specs.Words.{u16_at, u32_at};

use byteorder::{ByteOrder, LittleEndian};

/// The bytes from `at` on, none where that is past the end.
pub fn rest(bytes: &[u8], at: usize) -> &[u8]
    ensures { result.now ≡ drop at bytes.now }
{
    if at < bytes.len() {
        bytes.split_at(at).1
    } else {
        &[]
    }
}

/// The two bytes from `at`, as a little-endian number.
pub fn u16_at(bytes: &[u8], at: usize) -> u16
    requires within { at + 2 ≤ length bytes.now }
    ensures { result ≡ u16_at bytes.now at }
{
    LittleEndian::read_u16(rest(bytes, at))
}

/// The four bytes from `at`, as a little-endian number.
pub fn u32_at(bytes: &[u8], at: usize) -> u32
    requires within { at + 4 ≤ length bytes.now }
    ensures { result ≡ u32_at bytes.now at }
{
    LittleEndian::read_u32(rest(bytes, at))
}
