//! The first reading of a source: where its lines stand, how many there are, and its names.

ghost use Rattle.std.specs.Prelude.{◌≡◌, ◌+◌, ◌<◌, ◌≤◌, ◌^◌, length, Some, IfOk, OnOk};
ghost use Rattle.cfi_text.specs.Lines.{numbered_lines};
ghost use Rattle.rv_names.specs.Names.{with_name, with_definition, with_names};
ghost use Rattle.rv_asm.specs.inner.Passes.{file_of};
ghost use Rattle.rv_asm.specs.Reference.{reference_of};
ghost use Rattle.rv_asm.specs.Spot.{pair_label};
ghost use Rattle.rv_asm.specs.inner.Count.{said_of, count_of};
ghost use Rattle.rv_asm.specs.Symbols.{definition_at};
ghost use Rattle.rv_asm.specs.inner.Survey.{with_reference, with_statement, is_idle, names_of, nothing, with_kept, with_line, with_lines, with_noted};

use crate::file::File;
use crate::reference::reference_of;
use crate::row::Row;
use crate::spot::{Spot, pair_label};
use cfi_text::Lines;
use cfi_values::Items;
use elf_read::Name;
use rv_line::{Line, NodeKind, Statement, read_line};
use rv_names::{Definition, Names};
use std::alloc::{AllocError, Global};
use std::marker::Model;

/// What the lines so far have said.
#[derive(Drop)]
pub struct Survey {
    spot: Spot,
    names: Names,
    kinds: Vec<NodeKind>,
    records: bool,
    lines: u32,
    // Those of lines that say something: a source may be blank lines for the most part.
    rows: Vec<Row>,
}

impl Model for Survey {
    ghost use Rattle.rv_asm.specs.inner.Survey.{Survey as Said};

    ghost Value = { Said };

    ghost use Rattle.rv_asm.specs.inner.Kept.{survey_of};

    ghost view = { survey_of };
}

// A label of a line.
fn definition_at(number: u32, spot: Spot) -> Definition
    ensures { result ≡ definition_at number spot }
{
    Definition {
        line: number,
        area: spot.area,
        value: spot.end(),
    }
}

#[tactic(auto, using(crate::proofs::CountLemmas::definition_more))]
fn add_pair(
    alloc: Global,
    names: &mut Names,
    number: u32,
    spot: Spot,
    name: &Name,
) -> Result<(), AllocError>
    requires { length names.old + 2 < 2 ^ 32 }
    ensures { OnOk result (names.new ≡ with_name
        (with_definition names.old (pair_label spot.pairs) (definition_at number spot)) name.now) }
{
    let label = pair_label(alloc, spot.pairs)?;
    names.define(alloc, label.as_str(), definition_at(number, spot))?;
    names.mention(alloc, name.as_str())
}

fn add_names(alloc: Global, names: &mut Names, added: &[Name]) -> Result<(), AllocError>
    requires { length names.old + length added.now < 2 ^ 32 }
    ensures { OnOk result (names.new ≡ with_names names.old added.now) }
{
    let mut added = added;
    while let [name, rest @ ..] = added {
        names.mention(alloc, name.as_str())?;
        added = rest;
    }
    Ok(())
}

// Adds the names of a statement.
fn add_statement(
    alloc: Global,
    names: &mut Names,
    number: u32,
    spot: Spot,
    statement: &Statement,
) -> Result<(), AllocError>
    requires { length names.old + said_of (Some statement.now) < 2 ^ 32 }
    ensures { OnOk result (names.new ≡ with_statement names.old number spot statement.now) }
{
    match statement {
        Statement::La { name, .. } => add_pair(alloc, names, number, spot, name),
        Statement::Globl(name) => names.export(alloc, name.as_str()),
        Statement::Func { name, .. } => names.define(
            alloc,
            name.as_str(),
            definition_at(number, spot),
        ),
        Statement::KindSwitch(added) => add_names(alloc, names, added.as_slice()),
        _ => add_reference(alloc, names, statement),
    }
}

fn add_reference(alloc: Global, names: &mut Names, statement: &Statement) -> Result<(), AllocError>
    requires { length names.old + 1 < 2 ^ 32 }
    ensures { OnOk result (names.new ≡ with_reference names.old (reference_of statement.now)) }
{
    match reference_of(statement) {
        Some(reference) => names.mention(alloc, reference.name.as_str()),
        None => Ok(()),
    }
}

// Adds the names of a line: its label, then those of its statement.
#[tactic(auto, using(crate::proofs::CountLemmas::definition_more))]
fn add_line(
    alloc: Global,
    names: &mut Names,
    number: u32,
    spot: Spot,
    line: &Line,
) -> Result<(), AllocError>
    requires { length names.old + count_of line.now < 2 ^ 32 }
    ensures { OnOk result (names.new ≡ names_of names.old number spot line.now) }
{
    if let Some(label) = &line.label {
        names.define(alloc, label.as_str(), definition_at(number, spot))?;
    }
    match &line.statement {
        Some(statement) => add_statement(alloc, names, number, spot, statement),
        None => Ok(()),
    }
}

// Whether a line says nothing, so that it needs no row.
fn is_idle(line: &Line) -> bool
    ensures { result ≡ is_idle line.now }
{
    match &line.statement {
        Some(Statement::Blank) => line.label.is_none(),
        _ => false,
    }
}

impl Survey {
    /// Before the first line.
    pub fn new(alloc: Global) -> Survey
        ensures { result ≡ nothing }
    {
        Survey {
            spot: Spot::start(),
            names: Names::new(alloc),
            kinds: Vec::new(alloc),
            records: false,
            lines: 0,
            rows: Vec::new(alloc),
        }
    }

    // Notes what a line says of the whole.
    fn note(&mut self, alloc: Global, number: u32, line: &Line) -> Result<(), AllocError>
        requires { length self.old.names + count_of line.now < 2 ^ 32 }
        ensures { OnOk result (self.new ≡ with_noted self.old number line.now) }
    {
        add_line(alloc, &mut self.names, number, self.spot, line)?;
        if let Some(Statement::Node { kind, .. }) = &line.statement {
            self.kinds.push(*kind)?;
        }
        self.records |= line.records;
        Ok(())
    }

    // Adds a line that was noted.
    fn keep(&mut self, number: u32, line: Line) -> Result<(), AllocError>
        ensures { OnOk result (self.new ≡ with_kept self.old number line) }
    {
        let spot = self.spot;
        self.spot = spot.after(line.statement.as_ref());
        self.lines = number;
        if is_idle(&line) {
            return Ok(());
        }
        self.rows.push(Row {
            number,
            label: line.label,
            statement: line.statement,
            spot,
            names: self.names.count(),
        })?;
        Ok(())
    }

    /// Takes the line of this number.
    pub fn take(&mut self, alloc: Global, number: u32, line: Line) -> Result<(), AllocError>
        requires { length self.old.names + count_of line < 2 ^ 32 }
        ensures { OnOk result (self.new ≡ with_line self.old number line) }
    {
        self.note(alloc, number, &line)?;
        self.keep(number, line)
    }

    /// How many lines there were.
    pub fn lines(&self) -> u32
        ensures { result ≡ self.now.lines }
    {
        self.lines
    }

    /// What all lines know of the whole, and the lines that say something.
    pub fn into_file(self, alloc: Global) -> Result<(File, Vec<Row>), AllocError>
        ensures file { IfOk result (λ parts. parts.0 ≡ file_of self) }
        ensures rows { IfOk result (λ parts. parts.1.items ≡ self.rows) }
    {
        let file = File {
            names: self.names.in_order(alloc)?,
            kinds: Items::from_vec(self.kinds),
            records: self.records,
        };
        Ok((file, self.rows))
    }
}

/// What all lines of a text say; it has at most as many lines as bytes.
pub fn survey_of(alloc: Global, text: &[u8]) -> Result<Survey, AllocError>
    requires { length text.now + 1 < 2 ^ 32 }
    ensures same { IfOk result (λ survey. survey ≡ with_lines nothing (numbered_lines text.now)) }
    ensures few { IfOk result (λ survey. survey.lines ≤ length text.now) }
{
    read_all(alloc, text)
}

#[tactic(auto, using(crate::proofs::CountLemmas::line_more, crate::proofs::LineCountLemmas::line_few, crate::proofs::CountLemmas::text_left))]
fn read_all(alloc: Global, text: &[u8]) -> Result<Survey, AllocError>
    requires { length text.now + 1 < 2 ^ 32 }
    ensures { IfOk result (λ survey. survey ≡ with_lines nothing (numbered_lines text.now)) }
{
    let mut survey = Survey::new(alloc);
    for (number, line) in Lines::new(text) {
        survey.take(alloc, number, read_line(alloc, line)?)?;
    }
    Ok(survey)
}
