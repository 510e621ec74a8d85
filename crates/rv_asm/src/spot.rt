//! Where a line of a source stands.

ghost use Rattle.std.specs.Prelude.{◌≡◌, IfOk};
ghost use Rattle.std.specs.String.{string_bytes};
ghost use Rattle.rv_asm.specs.Spot.{text_size, data_size, zero_size, pair_label};
ghost use Rattle.rv_asm.specs.inner.Spot.{at_most};

use crate::words::{li_words, low_word};
use elf_read::Area;
use rv_line::{Datum, Statement};
use std::alloc::{AllocError, Global};

/// Where a line of a source stands.
#[derive(Clone, Copy)]
pub struct Spot {
    /// Whether it is a line of text or of data.
    pub area: Area,
    /// How many bytes of text stand before it, at most 2^32 - 1.
    pub text_end: u32,
    /// How many bytes of data stand before it, at most 2^32 - 1.
    pub data_end: u32,
    /// How many `la` stand before it.
    pub pairs: u32,
}

impl Spot {
    ghost use Rattle.std.specs.Prelude.{◌≡◌};
    ghost use Rattle.std.specs.Option.{option_copied};
    ghost use Rattle.rv_asm.specs.Spot.{end_of};
    ghost use Rattle.rv_asm.specs.inner.Spot.{start, beyond, after, after_line};

    /// Before the first line.
    pub fn start() -> Spot
        ensures { result ≡ start }
    {
        Spot {
            area: Area::Text,
            text_end: 0,
            data_end: 0,
            pairs: 0,
        }
    }

    /// How many bytes of its own area stand before the line.
    pub fn end(self) -> u32
        ensures { result ≡ end_of self }
    {
        match self.area {
            Area::Text => self.text_end,
            Area::Data => self.data_end,
        }
    }

    /// Where the line after one with this statement stands. A line without one adds nothing.
    pub fn after(self, statement: Option<&Statement>) -> Spot
        ensures { result ≡ after_line self (option_copied statement.entry) }
    {
        match statement {
            Some(statement) => self.after_statement(statement),
            None => self,
        }
    }

    fn after_statement(self, statement: &Statement) -> Spot
        ensures { result ≡ after self statement.now }
    {
        match statement {
            Statement::Text => Spot {
                area: Area::Text,
                ..self
            },
            Statement::Data => Spot {
                area: Area::Data,
                ..self
            },
            Statement::La { .. } => Spot {
                pairs: self.pairs.saturating_add(1),
                ..self
            }
            .beyond(statement),
            _ => self.beyond(statement),
        }
    }

    // Behind what the statement adds to its area.
    fn beyond(self, statement: &Statement) -> Spot
        ensures { result ≡ beyond self self.area statement.now }
    {
        match self.area {
            Area::Text => Spot {
                text_end: self.text_end.saturating_add(text_size(statement)),
                ..self
            },
            Area::Data => Spot {
                data_end: self.data_end.saturating_add(data_size(statement)),
                ..self
            },
        }
    }
}

// The bytes that a statement adds to the text.
fn text_size(statement: &Statement) -> u32
    ensures { result ≡ text_size statement.now }
{
    match statement {
        Statement::Li { rd, number } => li_words(*rd, low_word(*number)).size(),
        Statement::La { .. } | Statement::Call(_) | Statement::Tail(_) => 8,
        Statement::Word(Datum::Number(_)) => 4,
        Statement::Blank
        | Statement::Text
        | Statement::Data
        | Statement::Globl(_)
        | Statement::Word(Datum::Name(_))
        | Statement::Zero(_)
        | Statement::Node { .. }
        | Statement::Func { .. }
        | Statement::EndFunc
        | Statement::KindCall(_)
        | Statement::KindTail(_)
        | Statement::KindReturn
        | Statement::KindSwitch(_) => 0,
        _ => 4,
    }
}

// The bytes that a statement adds to data, at most 2^32 - 1.
fn data_size(statement: &Statement) -> u32
    ensures { result ≡ at_most (data_size statement.now) }
{
    match statement {
        Statement::Word(_) => 4,
        Statement::Zero(number) => zero_size(*number),
        _ => 0,
    }
}

// How many zeros a number asks for, at most 2^32 - 1.
fn zero_size(number: i64) -> u32
    ensures { result ≡ at_most (zero_size number) }
{
    if number < 0 {
        0
    } else if number > i64::from(u32::MAX) {
        u32::MAX
    } else {
        number as u32
    }
}

/// The label of the `la` of this number, from 0.
pub fn pair_label(alloc: Global, number: u32) -> Result<String, AllocError>
    ensures { IfOk result (λ label. string_bytes label ≡ pair_label number) }
{
    format!(in alloc; ".Lpc{number}")
}
