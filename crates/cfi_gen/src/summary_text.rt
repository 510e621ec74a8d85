//! The text of a summary.

ghost use Rattle.std.specs.Prelude.{◌≡◌, ◌++◌, IfOk, OnOk};
ghost use Rattle.std.specs.List.{flat_map};
ghost use Rattle.cfi_gen.specs.Summary.{asked_line, count_line, guest_lines, measure_lines, summary_text};

use crate::spell::put_guest;
use cfi_report::{GuestPart, Report};
use cfi_text::put_dec;
use std::alloc::{AllocError, Global};

/// How much modules are in all.
#[derive(Clone, Copy, Debug, Drop)]
pub struct Measure {
    /// How many words.
    pub words: u64,
    /// How many slots.
    pub slots: u64,
    /// How many groups with targets.
    pub classes: u64,
}

// Appends what was asked for.
fn put_asked(text: &mut Vec<u8>, seed: u64, count: u32) -> Result<(), AllocError>
    ensures { OnOk result (text.new.items ≡ text.old.items ++ asked_line seed count) }
{
    text.extend_from_slice(b"gen ")?;
    put_dec(text, seed)?;
    text.push(b' ')?;
    put_dec(text, u64::from(count))?;
    text.push(b'\n')?;
    Ok(())
}

// Appends a word and its number.
fn put_count(text: &mut Vec<u8>, word: &[u8], number: u64) -> Result<(), AllocError>
    ensures { OnOk result (text.new.items ≡ text.old.items ++ count_line word.now number) }
{
    text.extend_from_slice(word)?;
    text.push(b' ')?;
    put_dec(text, number)?;
    text.push(b'\n')?;
    Ok(())
}

// Appends how much there is.
fn put_measure(text: &mut Vec<u8>, measure: &Measure) -> Result<(), AllocError>
    ensures { OnOk result (text.new.items ≡ text.old.items ++ measure_lines measure.now) }
{
    put_count(text, b"words", measure.words)?;
    put_count(text, b"slots", measure.slots)?;
    put_count(text, b"classes", measure.classes)
}

// Appends the lines of guests.
fn put_guests(text: &mut Vec<u8>, guests: &[GuestPart]) -> Result<(), AllocError>
    ensures { OnOk result (text.new.items ≡ text.old.items ++ flat_map guest_lines guests.now) }
{
    for guest in guests {
        put_guest(text, guest)?;
    }
    Ok(())
}

/// The summary of the run of a seed, with so many modules.
pub fn summary(
    alloc: Global,
    seed: u64,
    count: u32,
    measure: &Measure,
    report: &Report,
) -> Result<Vec<u8>, AllocError>
    ensures { IfOk result (λ text. text.items ≡ summary_text seed count measure.now report.now) }
{
    let mut text = Vec::new(alloc);
    put_asked(&mut text, seed, count)?;
    put_measure(&mut text, measure)?;
    put_guests(&mut text, report.guests.as_slice())?;
    text.extend_from_slice(b"end\n")?;
    Ok(text)
}
