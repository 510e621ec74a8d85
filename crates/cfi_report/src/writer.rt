ghost use Rattle.std.specs.Prelude.{◌≡◌, ◌++◌, OnOk, IfOk, map};
ghost use Rattle.std.specs.List.{flat_map};
ghost use Rattle.cfi_report.specs.declared.line.Line.TheVariants as line;
ghost use Rattle.cfi_report.specs.Line.{line_text};
ghost use Rattle.cfi_report.specs.Report.{guest_lines, ending_lines, lines_text, report_text};

use crate::put::{put, put_address, put_end, put_number, put_word};
use crate::report::{GuestPart, Report};
use crate::spell::{put_entry, put_logged, put_out, put_steps, put_stop, put_units};
use cfi_plan::{Entry, ModuleLine};
use cfi_unit::Log;
use std::alloc::{AllocError, Global};

/// The text of a report.
///
/// A guest that has not stopped is written with `stop none`, which `read_report` takes for no report.
pub fn write_report(alloc: Global, report: &Report) -> Result<Vec<u8>, AllocError>
    ensures ok { IfOk result (λ bytes. bytes.items ≡ report_text report.now) }
{
    let mut out = Vec::new(alloc);
    put(&mut out, b"report 1\n")?;
    put_force(&mut out, report.epoch, report.policy)?;
    put_modules(&mut out, report.modules.as_slice())?;
    put_journal(&mut out, report.journal.as_slice())?;
    put_guests(&mut out, report.guests.as_slice())?;
    put(&mut out, b"end\n")?;
    Ok(out)
}

fn put_force(out: &mut Vec<u8>, epoch: u32, policy: u32) -> Result<(), AllocError>
    ensures { OnOk result (out.new.items ≡ out.old.items ++ line_text (line.Force epoch policy)) }
{
    put(out, b"force")?;
    put_number(out, epoch)?;
    put_number(out, policy)?;
    put_end(out)
}

fn put_modules(out: &mut Vec<u8>, modules: &[ModuleLine]) -> Result<(), AllocError>
    ensures { OnOk result
        (out.new.items ≡ out.old.items ++ lines_text (map line.Module modules.now)) }
{
    for module in modules {
        put_module(out, module)?;
    }
    Ok(())
}

fn put_module(out: &mut Vec<u8>, one: &ModuleLine) -> Result<(), AllocError>
    ensures { OnOk result (out.new.items ≡ out.old.items ++ line_text (line.Module one.now)) }
{
    put(out, b"module")?;
    put_number(out, one.number)?;
    put_word(out, one.name.as_str().as_bytes())?;
    put_number(out, one.base)?;
    put_number(out, one.slot)?;
    put_address(out, one.data_base)?;
    put_number(out, one.policy)?;
    put_end(out)
}

fn put_journal(out: &mut Vec<u8>, journal: &[Entry]) -> Result<(), AllocError>
    ensures { OnOk result
        (out.new.items ≡ out.old.items ++ lines_text (map line.Journal journal.now)) }
{
    for entry in journal {
        put_entry(out, *entry)?;
    }
    Ok(())
}

fn put_guests(out: &mut Vec<u8>, guests: &[GuestPart]) -> Result<(), AllocError>
    ensures { OnOk result
        (out.new.items ≡ out.old.items ++ lines_text (flat_map guest_lines guests.now)) }
{
    for guest in guests {
        put_guest(out, guest)?;
    }
    Ok(())
}

fn put_guest(out: &mut Vec<u8>, guest: &GuestPart) -> Result<(), AllocError>
    ensures { OnOk result (out.new.items ≡ out.old.items ++ lines_text (guest_lines guest.now)) }
{
    put_opening(out, guest)?;
    put_log(out, guest.log.as_slice())?;
    put_ending(out, guest)
}

// The guest's number and entry.
fn put_opening(out: &mut Vec<u8>, guest: &GuestPart) -> Result<(), AllocError>
    ensures { OnOk result
        (out.new.items ≡ out.old.items ++ line_text (line.Guest guest.now.number guest.now.entry)) }
{
    put(out, b"guest")?;
    put_number(out, guest.number)?;
    put_word(out, guest.entry.as_str().as_bytes())?;
    put_end(out)
}

fn put_log(out: &mut Vec<u8>, log: &[Log]) -> Result<(), AllocError>
    ensures { OnOk result (out.new.items ≡ out.old.items ++ lines_text (map line.Log log.now)) }
{
    for entry in log {
        put_logged(out, *entry)?;
    }
    Ok(())
}

// What the guest has come to, after its log.
fn put_ending(out: &mut Vec<u8>, guest: &GuestPart) -> Result<(), AllocError>
    ensures { OnOk result (out.new.items ≡ out.old.items ++ lines_text (ending_lines guest.now)) }
{
    put_out(out, guest.out.as_slice())?;
    put_stop(out, guest.stop)?;
    put_units(out, guest.units)?;
    put_steps(out, guest.steps)
}
