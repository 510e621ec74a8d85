ghost use Rattle.std.specs.Prelude.{◌≡◌, ◌++◌, ◌∷◌, [], OnOk, Option, Some, codes};
ghost use Rattle.cfi_unit.specs.declared.log.Log.TheVariants.{Pick, Open, Cause};
ghost use Rattle.cfi_report.specs.declared.line.Line.TheVariants as line;
ghost use Rattle.cfi_report.specs.Line.{line_text, who_field, what_fields, stop_fields, field_text, spaced, Word, Decimal};

use crate::put::{put, put_address, put_bytes, put_end, put_number, put_word};
use cfi_plan::{Entry, JournalLine, Who};
use cfi_unit::{Log, Stop};
use std::alloc::AllocError;

/// Appends a line of the journal.
pub fn put_entry(out: &mut Vec<u8>, entry: Entry) -> Result<(), AllocError>
    ensures { OnOk result (out.new.items ≡ out.old.items ++ line_text (line.Journal entry)) }
{
    put(out, b"journal")?;
    put_who(out, entry.who)?;
    put_what(out, entry.what)?;
    put_end(out)
}

fn put_who(out: &mut Vec<u8>, who: Who) -> Result<(), AllocError>
    ensures { OnOk result (out.new.items ≡ out.old.items ++ 32 ∷ field_text (who_field who)) }
{
    match who {
        Who::Script => put_word(out, b"script"),
        Who::Guest(number) => put_number(out, number),
    }
}

fn put_what(out: &mut Vec<u8>, what: JournalLine) -> Result<(), AllocError>
    ensures { OnOk result (out.new.items ≡ out.old.items ++ spaced (what_fields what)) }
{
    match what {
        JournalLine::LoadOk {
            module,
            epoch,
            policy,
        } => put_three(out, b"load", module, b"ok", epoch, policy),
        JournalLine::LoadAgain { module, policy } => {
            put_two(out, b"load", module, b"again", policy)
        }
        JournalLine::LoadFull { module } => put_one(out, b"load", module, b"full"),
        JournalLine::LoadPlace { module, number } => {
            put_two(out, b"load", module, b"place", number)
        }
        JournalLine::LoadVerify {
            module,
            number,
            place,
        } => put_three(out, b"load", module, b"verify", number, place),
        JournalLine::LoadVersions {
            module,
            guest,
            quiet,
        } => put_three(out, b"load", module, b"versions", guest, quiet),
        JournalLine::LoadEpochs { module } => put_one(out, b"load", module, b"epochs"),
        JournalLine::LoadRetired { module } => put_one(out, b"load", module, b"retired"),
        JournalLine::RefreshOk { epoch } => {
            put_refresh(out, b"ok")?;
            put_number(out, epoch)
        }
        JournalLine::RefreshVersions { guest, quiet } => {
            put_refresh(out, b"versions")?;
            put_number(out, guest)?;
            put_number(out, quiet)
        }
        JournalLine::RefreshEpochs => put_refresh(out, b"epochs"),
        JournalLine::RetireOk {
            module,
            epoch,
            policy,
        } => put_three(out, b"retire", module, b"ok", epoch, policy),
        JournalLine::RetireNotLive { module } => put_one(out, b"retire", module, b"notlive"),
        JournalLine::RetireInUse { module, user } => {
            put_two(out, b"retire", module, b"inuse", user)
        }
        JournalLine::RetireVersions {
            module,
            guest,
            quiet,
        } => put_three(out, b"retire", module, b"versions", guest, quiet),
        JournalLine::RetireEpochs { module } => put_one(out, b"retire", module, b"epochs"),
    }
}

// A call for the module of this number, and what came of it.
fn put_one(out: &mut Vec<u8>, verb: &[u8], number: u32, word: &[u8]) -> Result<(), AllocError>
    ensures { OnOk result (out.new.items ≡ out.old.items
        ++ spaced (Word verb.now ∷ Decimal number ∷ Word word.now ∷ [])) }
{
    put_word(out, verb)?;
    put_number(out, number)?;
    put_word(out, word)
}

// The same with a number more.
fn put_two(
    out: &mut Vec<u8>,
    verb: &[u8],
    number: u32,
    word: &[u8],
    last: u32,
) -> Result<(), AllocError>
    ensures { OnOk result (out.new.items ≡ out.old.items ++ spaced (Word verb.now
        ∷ Decimal number ∷ Word word.now ∷ Decimal last ∷ [])) }
{
    put_one(out, verb, number, word)?;
    put_number(out, last)
}

// The same with two.
fn put_three(
    out: &mut Vec<u8>,
    verb: &[u8],
    number: u32,
    word: &[u8],
    first: u32,
    last: u32,
) -> Result<(), AllocError>
    ensures { OnOk result (out.new.items ≡ out.old.items ++ spaced (Word verb.now
        ∷ Decimal number ∷ Word word.now ∷ Decimal first ∷ Decimal last ∷ [])) }
{
    put_two(out, verb, number, word, first)?;
    put_number(out, last)
}

// A refresh, and what came of it.
fn put_refresh(out: &mut Vec<u8>, word: &[u8]) -> Result<(), AllocError>
    ensures { OnOk result (out.new.items ≡ out.old.items
        ++ spaced (Word (codes "refresh") ∷ Word word.now ∷ [])) }
{
    put_word(out, b"refresh")?;
    put_word(out, word)
}

/// Appends an entry of a guest's log.
pub fn put_logged(out: &mut Vec<u8>, entry: Log) -> Result<(), AllocError>
    ensures { OnOk result (out.new.items ≡ out.old.items ++ line_text (line.Log entry)) }
{
    match entry {
        Log::Pick { policy, count } => put_pick(out, policy, count),
        Log::Open {
            module,
            address,
            policy,
        } => put_open(out, module, address, policy),
        Log::Cause { module, cause } => put_refusal(out, module, cause),
    }
}

fn put_pick(out: &mut Vec<u8>, policy: u32, count: u32) -> Result<(), AllocError>
    ensures { OnOk result
        (out.new.items ≡ out.old.items ++ line_text (line.Log (Pick policy count))) }
{
    put(out, b"pick")?;
    put_number(out, policy)?;
    put_number(out, count)?;
    put_end(out)
}

fn put_open(out: &mut Vec<u8>, number: u32, address: u32, policy: u32) -> Result<(), AllocError>
    ensures { OnOk result
        (out.new.items ≡ out.old.items ++ line_text (line.Log (Open number address policy))) }
{
    put(out, b"open")?;
    put_number(out, number)?;
    put_address(out, address)?;
    put_number(out, policy)?;
    put_end(out)
}

fn put_refusal(out: &mut Vec<u8>, number: u32, cause: u32) -> Result<(), AllocError>
    ensures { OnOk result
        (out.new.items ≡ out.old.items ++ line_text (line.Log (Cause number cause))) }
{
    put(out, b"open")?;
    put_number(out, number)?;
    put_word(out, b"cause")?;
    put_number(out, cause)?;
    put_end(out)
}

/// Appends what a guest put.
pub fn put_out(out: &mut Vec<u8>, bytes: &[u8]) -> Result<(), AllocError>
    ensures { OnOk result (out.new.items ≡ out.old.items ++ line_text (line.Out bytes.now)) }
{
    put(out, b"out")?;
    put_bytes(out, bytes)?;
    put_end(out)
}

/// Appends why a guest stopped.
pub fn put_stop(out: &mut Vec<u8>, stop: Option<Stop>) -> Result<(), AllocError>
    ensures { OnOk result (out.new.items ≡ out.old.items ++ line_text (line.Stop stop)) }
{
    put(out, b"stop")?;
    match stop {
        Some(stop) => put_cause(out, stop)?,
        None => put_word(out, b"none")?,
    }
    put_end(out)
}

fn put_cause(out: &mut Vec<u8>, stop: Stop) -> Result<(), AllocError>
    ensures { OnOk result (out.new.items ≡ out.old.items ++ spaced (stop_fields (Some stop))) }
{
    match stop {
        Stop::Exit(code) => {
            put_word(out, b"exit")?;
            put_number(out, code)
        }
        Stop::Halt(target) => {
            put_word(out, b"halt")?;
            put_address(out, target)
        }
        Stop::Align(place) => {
            put_word(out, b"align")?;
            put_address(out, place)
        }
        Stop::Fuel => put_word(out, b"fuel"),
    }
}

/// Appends how many units a guest ended.
pub fn put_units(out: &mut Vec<u8>, units: u32) -> Result<(), AllocError>
    ensures { OnOk result (out.new.items ≡ out.old.items ++ line_text (line.Units units)) }
{
    put(out, b"units")?;
    put_number(out, units)?;
    put_end(out)
}

/// Appends how many instructions a guest ran.
pub fn put_steps(out: &mut Vec<u8>, steps: u32) -> Result<(), AllocError>
    ensures { OnOk result (out.new.items ≡ out.old.items ++ line_text (line.Steps steps)) }
{
    put(out, b"steps")?;
    put_number(out, steps)?;
    put_end(out)
}
