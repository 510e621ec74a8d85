//! Loads and stores in bytes, the least byte of a number first.

ghost use Rattle.std.specs.Prelude.{◌≡◌, ◌+◌, ◌<◌, ◌≤◌, ◌^◌, length};
ghost use Rattle.std.specs.List.{splice};
ghost use Rattle.cfi_model.specs.Data.{load_width, store_width, loaded, stored};
ghost use Rattle.cfi_model.specs.Data.{byte_at, half_at, word_at, with_byte, with_half, with_data_word, sign_extended};

use rv_insn::{LoadKind, StoreKind};

/// How many bytes a load of this kind reads.
#[inline(always)]
pub fn load_width(kind: LoadKind) -> u32
    ensures { result ≡ load_width kind }
{
    match kind {
        LoadKind::Lb | LoadKind::Lbu => 1,
        LoadKind::Lh | LoadKind::Lhu => 2,
        LoadKind::Lw => 4,
    }
}

/// How many bytes a store of this kind writes.
#[inline(always)]
pub fn store_width(kind: StoreKind) -> u32
    ensures { result ≡ store_width kind }
{
    match kind {
        StoreKind::Sb => 1,
        StoreKind::Sh => 2,
        StoreKind::Sw => 4,
    }
}

/// What a load of this kind gives at a place of these bytes.
#[inline(always)]
pub(crate) fn load_from(bytes: &[u8], kind: LoadKind, at: usize) -> u32
    requires { at + load_width kind ≤ length bytes.now }
    ensures { result ≡ loaded kind bytes.now at }
{
    match kind {
        LoadKind::Lb => sign_extended_byte(byte(bytes, at)),
        LoadKind::Lh => sign_extended_half(half(bytes, at)),
        LoadKind::Lw => half(bytes, at) + 65536 * half(bytes, at + 2),
        LoadKind::Lbu => byte(bytes, at),
        LoadKind::Lhu => half(bytes, at),
    }
}

#[inline(always)]
fn byte(bytes: &[u8], at: usize) -> u32
    requires { at < length bytes.now }
    ensures value { result ≡ byte_at bytes.now at }
    ensures small { result < 2 ^ 8 }
{
    u32::from(bytes[at])
}

#[inline(always)]
fn half(bytes: &[u8], at: usize) -> u32
    requires { at + 2 ≤ length bytes.now }
    ensures value { result ≡ half_at bytes.now at }
    ensures small { result < 2 ^ 16 }
{
    byte(bytes, at) + 256 * byte(bytes, at + 1)
}

/// Stores a value by this kind at a place of these bytes.
#[inline(always)]
pub(crate) fn store_into(bytes: &mut [u8], kind: StoreKind, at: usize, value: u32)
    requires { at + store_width kind ≤ length bytes.old }
    ensures { bytes.new ≡ stored kind bytes.old at value }
{
    match kind {
        StoreKind::Sb => put_byte(bytes, at, value),
        StoreKind::Sh => put_half(bytes, at, value),
        StoreKind::Sw => {
            put_half(bytes, at, value);
            put_half(bytes, at + 2, value >> 16);
        }
    }
}

#[inline(always)]
fn put_byte(bytes: &mut [u8], at: usize, value: u32)
    requires { at < length bytes.old }
    ensures { bytes.new ≡ with_byte bytes.old at value }
{
    bytes[at] = (value % 256) as u8;
}

#[inline(always)]
fn put_half(bytes: &mut [u8], at: usize, value: u32)
    requires { at + 2 ≤ length bytes.old }
    ensures { bytes.new ≡ with_half bytes.old at value }
{
    put_byte(bytes, at, value);
    put_byte(bytes, at + 1, value >> 8);
}

#[inline(always)]
fn sign_extended_byte(number: u32) -> u32
    requires { number < 2 ^ 8 }
    ensures { result ≡ sign_extended (2 ^ 7) number }
{
    if number < 128 {
        number
    } else {
        0xffff_ff00 + number
    }
}

#[inline(always)]
fn sign_extended_half(number: u32) -> u32
    requires { number < 2 ^ 16 }
    ensures { result ≡ sign_extended (2 ^ 15) number }
{
    if number < 32768 {
        number
    } else {
        0xffff_0000 + number
    }
}

// Writes the bytes into a slice from an offset on.
pub(crate) fn write_bytes(to: &mut [u8], offset: usize, bytes: &[u8])
    requires { offset + length bytes.now ≤ length to.old }
    ensures { to.new ≡ splice to.old offset (offset + length bytes.now) bytes.now }
{
    let end = offset + bytes.len();
    to[offset..end].copy_from_slice(bytes);
}
