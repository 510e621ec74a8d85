//! The assembler.

ghost use Rattle.std.specs.Prelude.{◌+◌, ◌^◌, ◌<◌, length};
ghost use Rattle.rv_asm.specs.Assembled.{object_in, IsDue};
ghost use Rattle.rv_asm.specs.inner.Draft.{empty};
ghost use Rattle.rv_asm.specs.inner.Passes.{with_said, with_row, with_rows, drafted_by, passed_in, Gives};

use crate::check::{is_twice, is_unknown};
use crate::draft::Draft;
use crate::fault::AsmFault;
use crate::file::File;
use crate::row::Row;
use crate::step::Step;
use crate::survey::survey_of;
use cfi_word::limits::MAX_SYMBOLS;
use elf_read::Object;
use rv_line::Statement;
use std::alloc::Global;

// Adds a line that has a statement, or answers the least of its faults.
fn add_said(
    draft: &mut Draft,
    step: &Step,
    rest: &[Row],
    statement: &Statement,
) -> Result<(), AsmFault>
    ensures { Gives result draft.new
        (with_said step.now.file.now draft.old rest.now step.now.row.now statement.now) }
{
    let file = step.file;
    let row = step.row;
    if draft.is_astray(file, rest, row.spot, statement) {
        return Err(AsmFault::Syntax(row.number));
    }
    if is_unknown(&file.names, statement) {
        return Err(AsmFault::UnknownName(row.number));
    }
    if is_twice(&file.names, row, statement) {
        return Err(AsmFault::Twice(row.number));
    }
    if row.names as usize > MAX_SYMBOLS {
        return Err(AsmFault::Range(row.number));
    }
    draft.add(step, statement)
}

fn add_row(
    alloc: Global,
    draft: &mut Draft,
    file: &File,
    rest: &[Row],
    row: &Row,
) -> Result<(), AsmFault>
    ensures { Gives result draft.new
        (with_row file.now draft.old rest.now row.now row.now.statement) }
{
    let step = Step { alloc, file, row };
    match &row.statement {
        Some(statement) => add_said(draft, &step, rest, statement),
        None => Err(AsmFault::Syntax(row.number)),
    }
}

// What the lines make, or the first faulty one.
fn draft_of(alloc: Global, file: &File, rows: &[Row]) -> Result<Draft, AsmFault>
    ensures { IsDue result (with_rows file.now empty rows.now) }
{
    let mut draft = Draft::new(alloc);
    let mut rows = rows;
    while let [row, rest @ ..] = rows {
        add_row(alloc, &mut draft, file, rest, row)?;
        rows = rest;
    }
    Ok(draft)
}

// What the second pass gives.
fn drafted(alloc: Global, file: File, lines: u32, rows: &[Row]) -> Result<Object, AsmFault>
    requires { lines + 1 < 2 ^ 32 }
    ensures { IsDue result (drafted_by file lines rows.now) }
{
    let draft = draft_of(alloc, &file, rows)?;
    if draft.is_open() {
        return Err(AsmFault::Syntax(lines + 1));
    }
    Ok(draft.into_object(alloc, file)?)
}

// What the two passes over a text give.
fn passed(alloc: Global, text: &[u8]) -> Result<Object, AsmFault>
    requires { length text.now + 1 < 2 ^ 32 }
    ensures { IsDue result (passed_in text.now) }
{
    let survey = survey_of(alloc, text)?;
    let lines = survey.lines();
    let (file, rows) = survey.into_file(alloc)?;
    drafted(alloc, file, lines, rows.as_slice())
}

/// The object that a source makes, or its first faulty line.
///
/// `text` is the source, of lines that end at 0x0a. The first faulty line decides, then the least of its faults in the
/// order of the variants; `Memory` is the one further answer. RISC-V Unprivileged ISA 20191213, chapter 25, and RISC-V
/// ELF psABI: mnemonics, operands and relocations.
pub fn assemble(alloc: Global, text: &[u8]) -> Result<Object, AsmFault>
    requires { length text.now + 1 < 2 ^ 32 }
    ensures { IsDue result (object_in text.now) }
{
    passed(alloc, text)
}
