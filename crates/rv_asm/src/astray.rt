//! Statements that may not stand where they do.

ghost use Rattle.std.specs.Prelude.{◌≡◌, is_some};
ghost use Rattle.rv_asm.specs.Fault.{is_bare};
ghost use Rattle.rv_asm.specs.inner.Fault.{is_astray};

use crate::check::jump_follows;
use crate::draft::Draft;
use crate::file::File;
use crate::node::{callable_in, names_nodes};
use crate::row::Row;
use crate::spot::Spot;
use elf_read::Area;
use rv_line::{Datum, Statement};

impl Draft {
    /// Whether a function is open.
    pub fn is_open(&self) -> bool
        ensures { result ≡ is_some self.now.function }
    {
        self.function.is_some()
    }

    // Whether the open function has no word yet.
    fn is_bare(&self, end: u32) -> bool
        ensures { result ≡ is_bare end self.now.function }
    {
        match &self.function {
            Some(function) => function.offset == end,
            None => true,
        }
    }

    /// Whether a statement may not stand here, or names a node that is not there. `rest` are the lines after it.
    pub fn is_astray(&self, file: &File, rest: &[Row], spot: Spot, statement: &Statement) -> bool
        ensures { result ≡ is_astray file.now self.now rest.now spot statement.now }
    {
        let kinds = file.kinds.as_slice();
        let in_data = matches!(spot.area, Area::Data);
        match statement {
            Statement::Blank | Statement::Text | Statement::Data | Statement::Globl(_) => false,
            Statement::Word(datum) => !in_data && matches!(datum, Datum::Name(_)),
            Statement::Zero(_) => !in_data,
            Statement::Node { kind, fields } => {
                !names_nodes(kinds.len(), *kind, fields.as_slice())
            }
            Statement::Func { node, .. } => {
                in_data || self.function.is_some() || callable_in(kinds, *node).is_none()
            }
            Statement::EndFunc => self.is_bare(spot.text_end),
            Statement::KindCall(node) | Statement::KindTail(node) => {
                callable_in(kinds, *node).is_none() || !jump_follows(rest)
            }
            Statement::KindReturn | Statement::KindSwitch(_) => !jump_follows(rest),
            Statement::Jalr { .. } => in_data || (file.records && self.kind.is_none()),
            _ => in_data,
        }
    }
}
