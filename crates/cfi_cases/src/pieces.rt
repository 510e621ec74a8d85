//! The pieces of files and texts.

use crate::entry::Piece;
use std::alloc::{AllocError, Global};

/// What is repeated, and how often: `WORD*COUNT`, or a word once. `None` where the count is no number of 32 bits.
pub fn times(word: &str) -> Option<(&str, u32)> {
    match word.rsplit_once('*') {
        Some((part, count)) => Some((part, count.parse::<u32>().ok()?)),
        None => Some((word, 1)),
    }
}

// Appends the bytes so often.
fn repeat(bytes: &mut Vec<u8>, part: &[u8], count: u32) -> Result<(), AllocError> {
    for _ in 0..count {
        bytes.extend_from_slice(part)?;
    }
    Ok(())
}

// The words of hexadecimal digits, two for a byte.
fn hex_bytes(alloc: Global, text: &str) -> Result<Option<Vec<u8>>, AllocError> {
    let mut bytes = Vec::new(alloc);
    for word in text.split_whitespace() {
        let Some((digits, count)) = times(word) else {
            return Ok(None);
        };
        let Ok(part) = hex::decode(alloc, digits) else {
            return Ok(None);
        };
        repeat(&mut bytes, &part, count)?;
    }
    Ok(Some(bytes))
}

// The words of four bytes, each a hexadecimal number, the lowest byte first.
fn word_bytes(alloc: Global, text: &str) -> Result<Option<Vec<u8>>, AllocError> {
    let mut bytes = Vec::new(alloc);
    for word in text.split_whitespace() {
        let Some((digits, count)) = times(word) else {
            return Ok(None);
        };
        let Ok(number) = u32::from_str_radix(digits, 16) else {
            return Ok(None);
        };
        repeat(&mut bytes, &number.to_le_bytes(), count)?;
    }
    Ok(Some(bytes))
}

// What stands after `|` or `.`: a space and a text, or `*COUNT`, a space and a text; each time it ends with `end`.
fn text_bytes(alloc: Global, line: &str, end: &[u8]) -> Result<Option<Vec<u8>>, AllocError> {
    let mut bytes = Vec::new(alloc);
    let (mark, text) = line.split_once(' ').unwrap_or((line, ""));
    let Some((rest, count)) = times(mark) else {
        return Ok(None);
    };
    if !rest.is_empty() {
        return Ok(None);
    }
    for _ in 0..count {
        bytes.extend_from_slice(text.as_bytes())?;
        bytes.extend_from_slice(end)?;
    }
    Ok(Some(bytes))
}

// The piece `at PLACE HEX`.
fn placed(alloc: Global, text: &str) -> Result<Option<Piece>, AllocError> {
    let Some((place, digits)) = text.split_once(' ') else {
        return Ok(None);
    };
    let Ok(place) = place.parse::<usize>() else {
        return Ok(None);
    };
    Ok(hex_bytes(alloc, digits)?.map(|bytes| Piece::At(place, bytes)))
}

// The piece `from NAME` or `from NAME PLACE LENGTH`.
fn from_file(alloc: Global, text: &str) -> Result<Option<Piece>, AllocError> {
    let Some((name, part)) = text.split_once(' ') else {
        return Ok(Some(Piece::File(text.to_string(alloc)?, None)));
    };
    let name = name.to_string(alloc)?;
    let Some((place, length)) = part.split_once(' ') else {
        return Ok(None);
    };
    match (place.parse::<usize>(), length.parse::<usize>()) {
        (Ok(place), Ok(length)) => Ok(Some(Piece::File(name, Some((place, length))))),
        _ => Ok(None),
    }
}

/// The piece that a line is, and `None` where it is none.
pub fn piece_of(alloc: Global, line: &str) -> Result<Option<Piece>, AllocError> {
    if let Some(text) = line.strip_prefix('|') {
        return Ok(text_bytes(alloc, text, b"\n")?.map(Piece::Bytes));
    }
    if let Some(text) = line.strip_prefix('.') {
        return Ok(text_bytes(alloc, text, b"")?.map(Piece::Bytes));
    }
    let (word, rest) = line.split_once(' ').unwrap_or((line, ""));
    match word {
        "x" => Ok(hex_bytes(alloc, rest)?.map(Piece::Bytes)),
        "w" => Ok(word_bytes(alloc, rest)?.map(Piece::Bytes)),
        "from" => from_file(alloc, rest),
        "at" => placed(alloc, rest),
        "cut" => Ok(rest.parse::<usize>().ok().map(Piece::Cut)),
        _ => Ok(None),
    }
}
