//! The entries of a file of cases.

use crate::entry::{Commands, Entry, Head};
use crate::pieces::{piece_of, times};
use std::alloc::{AllocError, Global};

// The words of a command, `WORD*COUNT` so often; `""` is the empty word.
fn command_words(alloc: Global, text: &str) -> Result<Option<Vec<String>>, AllocError> {
    let mut words = Vec::new(alloc);
    for word in text.split_whitespace() {
        let Some((part, count)) = times(word) else {
            return Ok(None);
        };
        let part = if part == "\"\"" { "" } else { part };
        for _ in 0..count {
            words.push(part.to_string(alloc)?)?;
        }
    }
    Ok(Some(words))
}

// Commands with `;` between them.
fn commands_of(alloc: Global, text: &str) -> Result<Option<Commands>, AllocError> {
    let mut words = Vec::new(alloc);
    for command in text.split(';') {
        let Some(command) = command_words(alloc, command)? else {
            return Ok(None);
        };
        words.push(command)?;
    }
    let last = words.pop();
    Ok(last.map(|last| Commands { first: words, last }))
}

// The numbers of a line.
fn numbers_of(alloc: Global, text: &str) -> Result<Option<Vec<u32>>, AllocError> {
    let mut numbers = Vec::new(alloc);
    for word in text.split_whitespace() {
        let Ok(number) = word.parse::<u32>() else {
            return Ok(None);
        };
        numbers.push(number)?;
    }
    Ok(Some(numbers))
}

// The head `fail shelf NUMBERS` or `fail sink NUMBERS`.
fn fail_head(alloc: Global, text: &str) -> Result<Option<Head>, AllocError> {
    let (device, rest) = text.split_once(' ').unwrap_or((text, ""));
    let numbers = numbers_of(alloc, rest)?;
    match device {
        "shelf" => Ok(numbers.map(Head::FailShelf)),
        "sink" => Ok(numbers.map(Head::FailSink)),
        _ => Ok(None),
    }
}

// The head `left NAME` or `left NAME at PLACE`.
fn left_head(alloc: Global, text: &str) -> Result<Option<Head>, AllocError> {
    match text.split_once(" at ") {
        Some((name, place)) => {
            let name = name.to_string(alloc)?;
            let place = place.parse::<usize>().ok();
            Ok(place.map(|place| Head::Left(name, Some(place))))
        }
        None => Ok(Some(Head::Left(text.to_string(alloc)?, None))),
    }
}

// The head `table NAME $ COMMANDS`.
fn table_head(alloc: Global, text: &str) -> Result<Option<Head>, AllocError> {
    let Some((name, rest)) = text.split_once(" $ ") else {
        return Ok(None);
    };
    let name = name.to_string(alloc)?;
    Ok(commands_of(alloc, rest)?.map(|commands| Head::Table(name, commands)))
}

// The head `report` or `report LINE`.
fn report_head(text: &str) -> Head {
    if text.is_empty() {
        return Head::Report(None);
    }
    match text.parse::<u32>() {
        Ok(line) => Head::Report(Some(line)),
        Err(_) => Head::Bad,
    }
}

// The head of a line that is no row.
fn head_of(alloc: Global, line: &str) -> Result<Option<Head>, AllocError> {
    let (word, rest) = line.split_once(' ').unwrap_or((line, ""));
    match word {
        "group" => Ok(Some(Head::Group(rest.to_string(alloc)?))),
        "file" => Ok(Some(Head::File(rest.to_string(alloc)?))),
        "case" => Ok(Some(Head::Case(rest.to_string(alloc)?))),
        "fail" => fail_head(alloc, rest),
        "$" => Ok(commands_of(alloc, rest)?.map(Head::Run)),
        "=" => Ok(rest.parse::<u8>().ok().map(Head::Status)),
        "lines" => Ok(rest.parse::<u8>().ok().map(Head::Lines)),
        "left" => left_head(alloc, rest),
        "gone" => Ok(Some(Head::Gone(rest.to_string(alloc)?))),
        "gate" => Ok(rest.parse::<u32>().ok().map(Head::Gate)),
        "report" => Ok(Some(report_head(rest))),
        "table" => table_head(alloc, rest),
        _ => Ok(None),
    }
}

// The bytes of a text whose lines are joined by ` / `.
fn lines_of(alloc: Global, text: &str) -> Result<Vec<u8>, AllocError> {
    let mut bytes = Vec::new(alloc);
    if text.is_empty() {
        return Ok(bytes);
    }
    for line in text.split(" / ") {
        bytes.extend_from_slice(line.as_bytes())?;
        bytes.extend_from_slice(b"\n")?;
    }
    Ok(bytes)
}

// The entry `PIECE ; PIECE => STATUS TEXT`.
fn row_of(alloc: Global, line: usize, row: &str) -> Result<Option<Entry>, AllocError> {
    let Some((file, wanted)) = row.rsplit_once(" => ") else {
        return Ok(None);
    };
    let (status, text) = wanted.split_once(' ').unwrap_or((wanted, ""));
    let Ok(status) = status.parse::<u8>() else {
        return Ok(None);
    };
    let mut pieces = Vec::new(alloc);
    for part in file.split(" ; ") {
        let Some(piece) = piece_of(alloc, part)? else {
            return Ok(None);
        };
        pieces.push(piece)?;
    }
    let head = Head::Row(status, lines_of(alloc, text)?);
    Ok(Some(Entry { line, head, pieces }))
}

// The entry that a line begins.
fn entry_of(alloc: Global, line: usize, text: &str) -> Result<Entry, AllocError> {
    if let Some(row) = text.strip_prefix("- ") {
        if let Some(entry) = row_of(alloc, line, row)? {
            return Ok(entry);
        }
    }
    let head = head_of(alloc, text)?.unwrap_or(Head::Bad);
    Ok(Entry {
        line,
        head,
        pieces: Vec::new(alloc),
    })
}

// Adds a line to the entries: a piece to the last one, or a new one.
fn add(alloc: Global, entries: &mut Vec<Entry>, line: usize, text: &str) -> Result<(), AllocError> {
    if let Some(piece) = piece_of(alloc, text)? {
        if let Some(entry) = entries.last_mut() {
            entry.pieces.push(piece)?;
            return Ok(());
        }
    }
    entries.push(entry_of(alloc, line, text)?)?;
    Ok(())
}

/// The entries of a text, in order. Empty lines, and those that begin with `#`, say nothing.
pub fn entries_of(alloc: Global, text: &str) -> Result<Vec<Entry>, AllocError> {
    let mut entries = Vec::new(alloc);
    for (at, line) in text.lines().enumerate() {
        if !line.is_empty() && !line.starts_with('#') {
            add(alloc, &mut entries, at.saturating_add(1), line)?;
        }
    }
    Ok(entries)
}
