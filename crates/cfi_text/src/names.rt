//! Names of sources and plans, and of files.

ghost use Rattle.std.specs.Prelude.{◌≡◌, length, if◌then◌else◌, Some, None, IfOk};
ghost use Rattle.std.specs.Str.{is_utf8};
ghost use Rattle.std.specs.List.{list_all};
ghost use Rattle.cfi_text.specs.Names.{is_name, name_in, file_in, is_name_byte, begins_name};

use cfi_values::Text;
use cfi_word::limits::MAX_NAME;
use std::alloc::{AllocError, Global};

/// The text of a word that is a name. `None` where it is none.
pub fn name_of(alloc: Global, word: &[u8]) -> Result<Option<Text>, AllocError>
    ensures { IfOk result (λ found. found ≡ name_in word.now) }
{
    if is_name(word) {
        text_of(alloc, word)
    } else {
        Ok(None)
    }
}

/// The text of a word that may be the name of a file. `None` where it is none.
#[tactic(auto, unfolding(crate::specs::Names::is_file))]
pub fn file_of(alloc: Global, word: &[u8]) -> Result<Option<Text>, AllocError>
    ensures { IfOk result (λ found. found ≡ file_in word.now) }
{
    if 1 <= word.len() && word.len() <= MAX_NAME {
        text_of(alloc, word)
    } else {
        Ok(None)
    }
}

// The text of a word that is UTF-8.
fn text_of(alloc: Global, word: &[u8]) -> Result<Option<Text>, AllocError>
    ensures { IfOk result (λ found. found ≡ (if is_utf8 word.now then Some word.now else None)) }
{
    match str::from_utf8(word) {
        Ok(text) => {
            let text = String::from_str(alloc, text)?;
            Ok(Some(Text::from_string(text)))
        }
        Err(_) => Ok(None),
    }
}

#[tactic(auto, unfolding(crate::specs::Names::is_name))]
fn is_name(word: &[u8]) -> bool
    ensures { result ≡ is_name word.now }
{
    begins_name(word)
        && word.len() <= MAX_NAME
        && has_name_bytes(word)
        && !word.starts_with(b".Lpc".as_slice())
}

fn begins_name(word: &[u8]) -> bool
    ensures { result ≡ begins_name word.now }
{
    match word {
        [] => false,
        [first, ..] => !first.is_ascii_digit(),
    }
}

fn has_name_bytes(word: &[u8]) -> bool
    ensures { result ≡ list_all is_name_byte word.now }
{
    word.iter().all(|byte| is_name_byte(*byte))
}

fn is_name_byte(byte: u8) -> bool
    ensures { result ≡ is_name_byte byte }
{
    byte.is_ascii_alphanumeric() || byte == b'_' || byte == b'.' || byte == b'$'
}
