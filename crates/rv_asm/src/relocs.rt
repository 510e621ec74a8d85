//! The relocations of statements.

ghost use Rattle.std.specs.Prelude.{◌≡◌, ◌*◌, ◌≤◌, length, IfOk};
ghost use Rattle.cfi_word.specs.declared.limits.TheConstants.{MAX_WORDS};
ghost use Rattle.std.specs.Option.{option_map};
ghost use Rattle.rv_asm.specs.inner.Reference.{shown};
ghost use Rattle.rv_asm.specs.Relocs.{reloc_by, first_reloc, second_reloc, both, relocs_of};

use crate::reference::{Reference, is_leap, reference_of};
use crate::spot::{Spot, pair_label};
use elf_read::relocation::PCREL_LO12_I;
use elf_read::{Area, Reloc};
use rv_line::Statement;
use rv_names::Names;
use std::alloc::{AllocError, Global};

/// A relocation by a name.
pub fn reloc_by(names: &Names, area: Area, offset: u32, kind: u32, name: &str) -> Reloc
    ensures { result ≡ reloc_by names.now area offset kind name.now }
{
    Reloc {
        area,
        offset,
        kind,
        symbol: names.number_of(name),
        addend: 0,
    }
}

// The relocation of the name that a statement refers to, if it needs one.
fn first_reloc(names: &Names, spot: Spot, reference: Option<Reference<'_>>) -> Option<Reloc>
    ensures { result ≡ first_reloc names.now spot (option_map shown reference.entry) }
{
    let Some(Reference { kind, name }) = reference else {
        return None;
    };
    let name = name.as_str();
    if is_leap(kind) && names.text_value(name).is_some() {
        return None;
    }
    Some(reloc_by(names, spot.area, spot.end(), kind, name))
}

// The second relocation of `la`.
fn second_reloc(
    alloc: Global,
    names: &Names,
    spot: Spot,
    statement: &Statement,
) -> Result<Option<Reloc>, AllocError>
    requires { spot.text_end ≤ 4 * MAX_WORDS }
    ensures { IfOk result (λ reloc. reloc ≡ second_reloc names.now spot statement.now) }
{
    match statement {
        Statement::La { .. } => {
            let label = pair_label(alloc, spot.pairs)?;
            let offset = spot.text_end + 4;
            Ok(Some(reloc_by(names, Area::Text, offset, PCREL_LO12_I, label.as_str())))
        }
        _ => Ok(None),
    }
}

/// The relocations of a statement, in the order of their fields.
///
/// `spot` is within the text of an object.
pub fn relocs_of(
    alloc: Global,
    names: &Names,
    spot: Spot,
    statement: &Statement,
) -> Result<Vec<Reloc>, AllocError>
    requires { spot.text_end ≤ 4 * MAX_WORDS }
    ensures same { IfOk result (λ relocs. relocs.items ≡ relocs_of names.now spot statement.now) }
    ensures few { IfOk result (λ relocs. length relocs.items ≤ 2) }
{
    let first = first_reloc(names, spot, reference_of(statement));
    let second = second_reloc(alloc, names, spot, statement)?;
    both(alloc, first, second)
}

// What is there of two.
fn both(
    alloc: Global,
    first: Option<Reloc>,
    second: Option<Reloc>,
) -> Result<Vec<Reloc>, AllocError>
    ensures same { IfOk result (λ relocs. relocs.items ≡ both first second) }
    ensures few { IfOk result (λ relocs. length relocs.items ≤ 2) }
{
    let mut relocs = Vec::new(alloc);
    if let Some(first) = first {
        relocs.push(first)?;
    }
    if let Some(second) = second {
        relocs.push(second)?;
    }
    Ok(relocs)
}
