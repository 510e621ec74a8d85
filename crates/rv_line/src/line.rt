//! The lines of a source.

ghost use Rattle.std.specs.Prelude.{◌≡◌, IfOk};
ghost use Rattle.rv_line.specs.Statement.{form_of};
ghost use Rattle.rv_line.specs.Line.{statement_in, begins_records, line_of, faulty_line, line_in};

use crate::directives::directive_of;
use crate::insn::insn_of;
use crate::keyword::{Directive, directive_called, mnemonic_called, short_called};
use crate::operand::cut_at;
use crate::short::short_of;
use crate::statement::Statement;
use cfi_text::{name_of, split_word, statement, unblanked};
use elf_read::Name;
use std::alloc::{AllocError, Global};

/// A line of a source.
#[derive(Drop)]
pub struct Line {
    /// The label at its front, if it has one.
    pub label: Option<Name>,
    /// Its statement, `Blank` where it has none. `None` where what stands there is no statement.
    pub statement: Option<Statement>,
    /// Whether its first word, after a label, is `.node`, `.func` or `.kind`.
    pub records: bool,
}

// The statement of a word and what comes after it.
#[tactic(auto, unfolding(crate::specs::Statement::form_of))]
fn form_of(alloc: Global, word: &[u8], rest: &[u8]) -> Result<Option<Statement>, AllocError>
    ensures { IfOk result (λ found. found ≡ form_of word.now rest.now) }
{
    if let Some(mnemonic) = mnemonic_called(word) {
        return insn_of(alloc, mnemonic, rest);
    }
    if let Some(short) = short_called(word) {
        return short_of(alloc, short, rest);
    }
    match directive_called(word) {
        Some(directive) => directive_of(alloc, directive, rest),
        None => Ok(None),
    }
}

// The statement of a text.
fn statement_of(alloc: Global, text: &[u8]) -> Result<Option<Statement>, AllocError>
    ensures { IfOk result (λ found. found ≡ statement_in text.now) }
{
    let (word, rest) = split_word(text);
    match word {
        [] => Ok(Some(Statement::Blank)),
        _ => form_of(alloc, word, rest),
    }
}

// Whether a line that begins with this word belongs to the records.
fn begins_records(word: &[u8]) -> bool
    ensures { result ≡ begins_records word.now }
{
    matches!(
        directive_called(word),
        Some(Directive::Node | Directive::Func | Directive::Kind)
    )
}

// What a text says after a label, if one is there.
fn line_of(alloc: Global, label: Option<Name>, text: &[u8]) -> Result<Line, AllocError>
    ensures { IfOk result (λ line. line ≡ line_of label text.now) }
{
    let (word, _) = split_word(text);
    let records = begins_records(word);
    Ok(Line {
        label,
        statement: statement_of(alloc, text)?,
        records,
    })
}

// A line that says nothing, since its label is none.
fn faulty_line(text: &[u8]) -> Line
    ensures { result ≡ faulty_line text.now }
{
    let (word, _) = split_word(text);
    Line {
        label: None,
        statement: None,
        records: begins_records(word),
    }
}

/// The line that the bytes say.
///
/// `line` is without its line feed. A carriage return at its end is ignored, and `#` begins a comment. A line with a
/// wrong statement still has its label. Numbers are not looked at beyond their spelling: whether they fit their fields
/// is asked of the statement.
pub fn read_line(alloc: Global, line: &[u8]) -> Result<Line, AllocError>
    ensures { IfOk result (λ found. found ≡ line_in line.now) }
{
    let text = statement(line);
    let Some((front, back)) = cut_at(text, b':') else {
        return line_of(alloc, None, text);
    };
    match name_of(alloc, unblanked(front))? {
        Some(name) => line_of(alloc, Some(name), back),
        None => Ok(faulty_line(text)),
    }
}
