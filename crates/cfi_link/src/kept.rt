//! The relocations that are kept.

ghost use Rattle.std.specs.Prelude.{◌≡◌, ◌++◌, filter, IfOk, OnOk};
ghost use Rattle.cfi_link.specs.Applied.{renumbered, kept_in, is_in, by_area};

use crate::applied::target_of;
use crate::joined::OwnReloc;
use elf_read::{Area, Reloc};
use std::alloc::{AllocError, Global};

fn renumbered(numbers: &[u32], reloc: &Reloc) -> Reloc
    ensures { result ≡ renumbered numbers.now reloc.now }
{
    let symbol = reloc
        .symbol
        .map(|k| numbers.get(k as usize).copied().unwrap_or(0));
    Reloc { symbol, ..*reloc }
}

/// The relocations that are not applied, by the new numbers of symbols.
pub fn kept_in(
    alloc: Global,
    reaches: &[Option<u32>],
    numbers: &[u32],
    relocs: &[OwnReloc],
) -> Result<Vec<Reloc>, AllocError>
    ensures { IfOk result (λ kept. kept.items ≡ kept_in reaches.now numbers.now relocs.now) }
{
    let mut kept = Vec::new(alloc);
    for own in relocs {
        if target_of(reaches, &own.reloc).is_none() {
            kept.push(renumbered(numbers, &own.reloc))?;
        }
    }
    Ok(kept)
}

// Adds the relocations of an area.
fn push_area(out: &mut Vec<Reloc>, area: Area, relocs: &[Reloc]) -> Result<(), AllocError>
    ensures { OnOk result (out.new.items ≡ out.old.items ++ filter (is_in area) relocs.now) }
{
    for reloc in relocs {
        if reloc.area == area {
            out.push(*reloc)?;
        }
    }
    Ok(())
}

/// Relocations, those in text before those in data.
pub fn by_area(alloc: Global, relocs: &[Reloc]) -> Result<Vec<Reloc>, AllocError>
    ensures { IfOk result (λ sorted. sorted.items ≡ by_area relocs.now) }
{
    let mut sorted = Vec::with_capacity(alloc, relocs.len())?;
    push_area(&mut sorted, Area::Text, relocs)?;
    push_area(&mut sorted, Area::Data, relocs)?;
    Ok(sorted)
}
