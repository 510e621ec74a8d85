//! The lines of a guest.

ghost use Rattle.std.specs.Prelude.{◌≡◌, ◌++◌, codes, Some, OnOk};
ghost use Rattle.cfi_report.specs.Line.{line_text, stop_fields, spaced};
ghost use Rattle.cfi_report.specs.declared.line.Line.TheVariants as line;
ghost use Rattle.cfi_gen.specs.Summary.{count_line, guest_lines};

use cfi_report::GuestPart;
use cfi_text::{put_dec, put_hex, put_hex8};
use cfi_unit::Stop;
use std::alloc::AllocError;

// Appends what a guest put.
fn put_out(text: &mut Vec<u8>, bytes: &[u8]) -> Result<(), AllocError>
    ensures { OnOk result (text.new.items ≡ text.old.items ++ line_text (line.Out bytes.now)) }
{
    text.extend_from_slice(b"out ")?;
    if bytes.is_empty() {
        text.push(b'-')?;
    } else {
        put_hex(text, bytes)?;
    }
    text.push(b'\n')?;
    Ok(())
}

// Appends a cause and its number.
fn put_cause(text: &mut Vec<u8>, stop: Stop) -> Result<(), AllocError>
    ensures { OnOk result (text.new.items ≡ text.old.items ++ spaced (stop_fields (Some stop))) }
{
    match stop {
        Stop::Exit(code) => {
            text.extend_from_slice(b" exit ")?;
            put_dec(text, u64::from(code))
        }
        Stop::Halt(target) => {
            text.extend_from_slice(b" halt ")?;
            put_hex8(text, target)
        }
        Stop::Align(place) => {
            text.extend_from_slice(b" align ")?;
            put_hex8(text, place)
        }
        Stop::Fuel => {
            text.extend_from_slice(b" fuel")?;
            Ok(())
        }
    }
}

// Appends why a guest stopped.
fn put_stop(text: &mut Vec<u8>, stop: Option<Stop>) -> Result<(), AllocError>
    ensures { OnOk result (text.new.items ≡ text.old.items ++ line_text (line.Stop stop)) }
{
    text.extend_from_slice(b"stop")?;
    match stop {
        Some(stop) => put_cause(text, stop)?,
        None => text.extend_from_slice(b" none")?,
    }
    text.push(b'\n')?;
    Ok(())
}

// Appends the number of a guest.
fn put_number(text: &mut Vec<u8>, number: u32) -> Result<(), AllocError>
    ensures { OnOk result (text.new.items ≡ text.old.items ++ count_line (codes "guest") number) }
{
    text.extend_from_slice(b"guest ")?;
    put_dec(text, u64::from(number))?;
    text.push(b'\n')?;
    Ok(())
}

/// Appends the lines of a guest.
pub fn put_guest(text: &mut Vec<u8>, guest: &GuestPart) -> Result<(), AllocError>
    ensures { OnOk result (text.new.items ≡ text.old.items ++ guest_lines guest.now) }
{
    put_number(text, guest.number)?;
    put_out(text, guest.out.as_slice())?;
    put_stop(text, guest.stop)
}
