//! Words among bytes, the low byte first.

ghost use Rattle.std.specs.Prelude.{◌≡◌, ◌+◌, ◌≤◌, length};
ghost use Rattle.rv_reloc.specs.Bytes.{word_at, with_word};

/// The word at a place.
#[tactic(auto, unfolding(crate::specs::Bytes::word_at))]
pub fn word_at(bytes: &[u8], at: usize) -> u32
    requires within { at + 4 ≤ length bytes.now }
    ensures { result ≡ word_at at bytes.now }
{
    let (front, _) = bytes[at..].split_at(4);
    u32::from_le_bytes([front[0], front[1], front[2], front[3]])
}

/// Writes a word at a place.
#[tactic(auto, unfolding(crate::specs::Bytes::with_word))]
pub fn put_word(bytes: &mut [u8], at: usize, word: u32)
    requires within { at + 4 ≤ length bytes.old }
    ensures { bytes.new ≡ with_word at word bytes.old }
{
    bytes[at..at + 4].copy_from_slice(&word.to_le_bytes());
}
