//! The relocations that are applied when modules are joined.

ghost use Rattle.std.specs.Prelude.{◌≡◌, All, Ok, Err, OnOk, IfOk, IfErr, length};
ghost use Rattle.cfi_link.specs.Applied.{is_jump, reach_of_symbol, target_of, applied_to, applied_from};
ghost use Rattle.cfi_link.specs.inner.Ready.{CanBeApplied};
ghost use Rattle.cfi_link.specs.inner.Kept.{IsRelocFault};

use crate::fault::LinkFault;
use crate::joined::OwnReloc;
use elf_read::relocation::{BRANCH, JAL};
use elf_read::{Area, Reloc};
use rv_reloc::{RelocFault, apply};
use std::alloc::Global;

fn is_jump(reloc: &Reloc) -> bool
    ensures { result ≡ is_jump reloc.now }
{
    reloc.area == Area::Text && (reloc.kind == BRANCH || reloc.kind == JAL)
}

fn reach_of_symbol(reaches: &[Option<u32>], symbol: Option<u32>) -> Option<u32>
    ensures { result ≡ reach_of_symbol reaches.now symbol }
{
    *reaches.get(symbol? as usize)?
}

/// The value that a relocation is applied with, none where it is kept.
///
/// `reaches` says where each symbol leads in the text.
pub fn target_of(reaches: &[Option<u32>], reloc: &Reloc) -> Option<u32>
    ensures { result ≡ target_of reaches.now reloc.now }
{
    if is_jump(reloc) {
        reach_of_symbol(reaches, reloc.symbol)
    } else {
        None
    }
}

// Applies a relocation in text to its target, where it has one.
fn apply_to(text: &mut [u8], target: Option<u32>, reloc: &Reloc) -> Result<(), RelocFault>
    requires { CanBeApplied target (length text.old) reloc.now }
    ensures ok { OnOk result (applied_to target reloc.now text.old ≡ Ok text.new) }
    ensures fault { IfErr result (λ fault. applied_to target reloc.now text.old ≡ Err fault) }
{
    match target {
        None => Ok(()),
        Some(value) => apply(text, reloc, reloc.offset, value, None),
    }
}

// Applies the relocations that have a target, in order.
//
// `BadReloc` for the first that can not be applied; the text is then of no use.
fn apply_all(text: &mut [u8], reaches: &[Option<u32>], relocs: &[OwnReloc]) -> Result<(), LinkFault>
    requires { All (λ own.
        CanBeApplied (target_of reaches.now own.reloc) (length text.old) own.reloc)
        relocs.now }
    ensures ok { OnOk result (applied_from reaches.now relocs.now text.old ≡ Ok text.new) }
    ensures fault { IfErr result (IsRelocFault (applied_from reaches.now relocs.now text.old)) }
{
    for own in relocs {
        let target = target_of(reaches, &own.reloc);
        if let Err(_) = apply_to(text, target, &own.reloc) {
            return Err(LinkFault::BadReloc(own.owner, own.number));
        }
    }
    Ok(())
}

/// The text with the relocations applied that have a target.
pub fn applied_text(
    alloc: Global,
    source: &[u8],
    reaches: &[Option<u32>],
    relocs: &[OwnReloc],
) -> Result<Vec<u8>, LinkFault>
    requires { All (λ own.
        CanBeApplied (target_of reaches.now own.reloc) (length source.now) own.reloc)
        relocs.now }
    ensures ok { IfOk result (λ text. applied_from reaches.now relocs.now source.now
        ≡ Ok text.items) }
    ensures size { IfOk result (λ text. length text.items ≡ length source.now) }
    ensures fault { IfErr result (IsRelocFault (applied_from reaches.now relocs.now source.now)) }
{
    let mut text = Vec::from_slice(alloc, source)?;
    apply_all(text.as_mut_slice(), reaches, relocs)?;
    Ok(text)
}
