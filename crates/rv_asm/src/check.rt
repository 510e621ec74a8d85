//! The faults of a line.

ghost use Rattle.std.specs.Prelude.{◌≡◌};
ghost use Rattle.rv_names.specs.Names.{definition_in};
ghost use Rattle.rv_asm.specs.Fault.{is_kind, is_jump, says, is_unknown, is_elsewhere, is_twice};
ghost use Rattle.rv_asm.specs.inner.Fault.{jump_follows};

use crate::reference::{is_partner, reference_of};
use crate::row::Row;
use crate::switch::are_in_text;
use elf_read::Name;
use rv_line::Statement;
use rv_names::Names;

// Whether a line sets the kind of the next indirect jump.
fn says_kind(row: &Row) -> bool
    ensures { result ≡ says is_kind row.now.statement }
{
    match &row.statement {
        Some(Statement::KindCall(_) | Statement::KindTail(_)) => true,
        Some(Statement::KindReturn | Statement::KindSwitch(_)) => true,
        _ => false,
    }
}

// Whether a line is an indirect jump.
fn says_jump(row: &Row) -> bool
    ensures { result ≡ says is_jump row.now.statement }
{
    matches!(
        &row.statement,
        Some(Statement::Jalr { .. } | Statement::Ret)
    )
}

/// Whether an indirect jump follows before another kind.
pub fn jump_follows(rows: &[Row]) -> bool
    ensures { result ≡ jump_follows rows.now }
{
    let mut rows = rows;
    while let [row, rest @ ..] = rows {
        if says_kind(row) || says_jump(row) {
            return says_jump(row);
        }
        rows = rest;
    }
    false
}

/// Whether a statement has a name that must be defined and is not.
pub fn is_unknown(names: &Names, statement: &Statement) -> bool
    ensures { result ≡ is_unknown names.now statement.now }
{
    match statement {
        Statement::Globl(name) => names.definition_of(name.as_str()).is_none(),
        Statement::KindSwitch(switch) => !are_in_text(names, switch.as_slice()),
        _ => reference_of(statement).is_some_and(|reference| {
            is_partner(reference.kind) && names.text_value(reference.name.as_str()).is_none()
        }),
    }
}

// Whether the first definition of a name stands on another line than this one.
fn is_elsewhere(names: &Names, number: u32, name: &Name) -> bool
    ensures { result ≡ is_elsewhere number (definition_in names.now name.now) }
{
    match names.definition_of(name.as_str()) {
        Some(definition) => definition.line != number,
        None => false,
    }
}

/// Whether a line defines a name a second time.
pub fn is_twice(names: &Names, row: &Row, statement: &Statement) -> bool
    ensures { result ≡ is_twice names.now row.now.number row.now.label statement.now }
{
    let number = row.number;
    let label = row.label.as_ref();
    label.is_some_and(|label| is_elsewhere(names, number, label))
        || match statement {
            Statement::Func { name, .. } => {
                is_elsewhere(names, number, name)
                    || label.is_some_and(|label| label.as_str() == name.as_str())
            }
            _ => false,
        }
}
