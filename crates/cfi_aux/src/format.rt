//! The numbers of the record section, and which words its records may have.

ghost use Rattle.std.specs.Prelude.{◌≡◌};
ghost use Rattle.cfi_aux.specs.Format.{is_whole, is_length, is_flag, is_name_length, import_words, fits_import, is_cell, is_cell_in, has_count};

use cfi_word::limits::{MAX_ENTRIES, MAX_NAME};

/// The kind of a branch that is an indirect call.
pub const CALL: u32 = 0;
/// The kind of a branch that is an indirect tail call.
pub const TAIL: u32 = 1;
/// The kind of a branch that is a return.
pub const RETURN: u32 = 2;
/// The kind of a branch that is the jump of a switch.
pub const SWITCH: u32 = 3;
/// The kind of a branch that is an import.
pub const IMPORT: u32 = 4;
/// The number of words of an import whose name has one byte.
pub const MIN_IMPORT: u32 = 3;
/// The number of words of an import whose name has `MAX_NAME` bytes.
pub const MAX_IMPORT: u32 = 66;

/// Whether the word counts bytes of whole instructions.
pub fn is_whole(word: u32) -> bool
    ensures { result ≡ is_whole word }
{
    word % 4 == 0
}

/// Whether the word may be a function's length in bytes.
pub fn is_length(word: u32) -> bool
    ensures { result ≡ is_length word }
{
    word % 4 == 0 && word != 0
}

/// Whether the word may be a function's flags.
pub fn is_flag(word: u32) -> bool
    ensures { result ≡ is_flag word }
{
    word <= 1
}

/// Whether the word may be a name's number of bytes.
pub fn is_name_length(word: u32) -> bool
    ensures { result ≡ is_name_length word }
{
    1 <= word && word as usize <= MAX_NAME
}

/// How many words an import has whose name has so many bytes.
pub fn import_words(length: u32) -> u32
    ensures { result ≡ import_words length }
{
    2 + length.div_ceil(4)
}

/// Whether the word may be the length of the name of an import of `count` words.
pub fn fits_import(count: u32, word: u32) -> bool
    ensures { result ≡ fits_import count word }
{
    is_name_length(word) && import_words(word) == count
}

/// Whether the word may be where the cell of an import begins, in data of `size` bytes where that is known.
pub fn is_cell_in(size: Option<usize>, word: u32) -> bool
    ensures { result ≡ is_cell_in size word }
{
    match size {
        Some(size) => is_whole(word) && word as usize + 4 <= size,
        None => is_whole(word),
    }
}

/// Whether a branch of the kind may have `count` words.
pub fn has_count(kind: u32, count: u32) -> bool
    ensures { result ≡ has_count kind count }
{
    match kind {
        CALL | TAIL => count == 1,
        RETURN => count == 0,
        SWITCH => 1 <= count && count <= MAX_ENTRIES,
        IMPORT => MIN_IMPORT <= count && count <= MAX_IMPORT,
        _ => false,
    }
}
