ghost use Rattle.std.specs.Prelude.{◌≡◌, ◌%◌, length, IfOk};
ghost use Rattle.std.specs.Int.{w32, to_le_bytes};
ghost use Rattle.std.specs.List.{flat_map};
ghost use Rattle.rv_words.specs.Words.{AreWords};

use byteorder::{ByteOrder, LittleEndian};
use std::alloc::{AllocError, Global};

/// The words that bytes are, four bytes to a word, the lowest first.
///
/// The number of bytes is a multiple of four.
/// RISC-V Unprivileged ISA 20191213, 1.5: instructions lie in memory as little-endian parcels.
pub fn words_of(alloc: Global, bytes: &[u8]) -> Result<Vec<u32>, AllocError>
    requires whole { length bytes.now % 4 ≡ 0 }
    ensures ok { IfOk result (λ words. AreWords bytes.now words.items) }
{
    let mut words = vec![in alloc; 0u32; bytes.len() / 4]?;
    LittleEndian::read_u32_into(bytes, words.as_mut_slice());
    Ok(words)
}

/// The bytes of words, four to a word, the lowest first.
pub fn bytes_of(alloc: Global, words: &[u32]) -> Result<Vec<u8>, AllocError>
    ensures { IfOk result (λ bytes. bytes.items ≡ flat_map (to_le_bytes w32) words.now) }
{
    let mut bytes = Vec::with_capacity(alloc, 4 * words.len())?;
    for word in words {
        bytes.extend_from_slice(&word.to_le_bytes())?;
    }
    Ok(bytes)
}
