//! The displacements of high parts.

ghost use Rattle.std.specs.Prelude.{◌≡◌, ◌<◌, ◌^◌, ℕ, All, IfOk, OnOk};
ghost use Rattle.std.specs.Ordering.{nat_cmp};
ghost use Rattle.std.specs.BTreeMap.{get};
ghost use Rattle.cfi_place.specs.Relocated.{field_address, value_in, upper_part, high_parts, partner_in, with_partner};

use crate::defined::value_at;
use crate::room::Room;
use elf_read::relocation::PCREL_HI20;
use elf_read::{Area, Reloc};
use rv_reloc::displacement;
use std::alloc::{AllocError, Global};
use std::collections::BTreeMap;

/// The address of a relocation's field.
pub fn field_address(room: &Room, reloc: &Reloc) -> u32
    requires { field_address room.now reloc.now < 2 ^ 32 }
    ensures { result ≡ field_address room.now reloc.now }
{
    match reloc.area {
        Area::Text => 4 * room.base + reloc.offset,
        Area::Data => room.data_base + reloc.offset,
    }
}

/// The value that a relocation takes, which is there.
pub fn value_in(values: &[Option<u32>], reloc: &Reloc) -> u32
    ensures { result ≡ value_in values.now reloc.now }
{
    value_at(values, reloc).unwrap_or(0)
}

// The address of a relocation of a high part, and its displacement.
fn upper_part(room: &Room, values: &[Option<u32>], reloc: &Reloc) -> (u32, u32)
    requires { field_address room.now reloc.now < 2 ^ 32 }
    ensures { result ≡ upper_part room.now values.now reloc.now }
{
    let at = field_address(room, reloc);
    (at, displacement(value_in(values, reloc), reloc.addend, at))
}

// Adds a displacement at an address; one that is there stays.
fn add_partner(partners: &mut BTreeMap<u32, u32>, at: u32, number: u32) -> Result<(), AllocError>
    ensures { OnOk result ((address : ℕ) → get nat_cmp partners.new address
        ≡ with_partner at number (get nat_cmp partners.old address) address) }
{
    if !partners.contains_key(&at) {
        partners.insert(at, number)?;
    }
    Ok(())
}

/// The displacement of the first relocation of a high part at each address that has one.
pub fn partners(
    alloc: Global,
    room: &Room,
    values: &[Option<u32>],
    relocs: &[Reloc],
) -> Result<BTreeMap<u32, u32>, AllocError>
    requires { All (λ r. field_address room.now r < 2 ^ 32) relocs.now }
    ensures { IfOk result (λ partners. (address : ℕ) → get nat_cmp partners address
        ≡ partner_in (high_parts room.now values.now relocs.now) address) }
{
    let mut partners = BTreeMap::new(alloc);
    for reloc in relocs {
        if reloc.kind == PCREL_HI20 {
            let part = upper_part(room, values, reloc);
            add_partner(&mut partners, part.0, part.1)?;
        }
    }
    Ok(partners)
}
