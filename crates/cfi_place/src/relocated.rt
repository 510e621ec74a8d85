//! The relocations of a module, applied.

ghost use Rattle.std.specs.Prelude.{◌≡◌, ◌+◌, ◌≤◌, ◌^◌, true, All, Ok, Err, OnOk, IfErr, length};
ghost use Rattle.elf_read.specs.Relocation.{is_known, field_size};
ghost use Rattle.cfi_place.specs.Relocated.{areas_of, size_in, CanBeTried, high_parts, applied_in, relocated_from};
ghost use Rattle.cfi_place.specs.Placed.{IsFault};

use crate::fault::PlaceFault;
use crate::partner::{field_address, partners, value_in};
use crate::room::Room;
use elf_read::{Area, Reloc};
use rv_reloc::{RelocFault, apply};
use std::alloc::Global;

// Applies a relocation to the bytes of its area.
fn apply_in(
    text: &mut [u8],
    static_data: &mut [u8],
    reloc: &Reloc,
    at: u32,
    value: u32,
    partner: Option<u32>,
) -> Result<(), RelocFault>
    requires known { is_known reloc.now.kind ≡ true }
    requires within { reloc.now.offset + field_size reloc.now.kind
        ≤ size_in reloc.now.area (length text.old) (length static_data.old) }
    ensures ok { OnOk result (applied_in reloc.now.area reloc.now at value partner
        (areas_of text.old static_data.old) ≡ Ok (areas_of text.new static_data.new)) }
    ensures fault { IfErr result (λ fault. applied_in reloc.now.area reloc.now at value partner
        (areas_of text.old static_data.old) ≡ Err fault) }
{
    match reloc.area {
        Area::Text => apply(text, reloc, at, value, partner),
        Area::Data => apply(static_data, reloc, at, value, partner),
    }
}

/// Applies relocations to the bytes of a module's text and data, in order.
///
/// `Reloc` with the number, from 0, of the first that can not be applied; the bytes are then of no use.
pub fn relocate(
    alloc: Global,
    text: &mut [u8],
    static_data: &mut [u8],
    room: &Room,
    values: &[Option<u32>],
    relocs: &[Reloc],
) -> Result<(), PlaceFault>
    requires ready { All
        (CanBeTried room.now (length text.old) (length static_data.old)) relocs.now }
    requires few { length relocs.now ≤ 2 ^ 32 }
    ensures ok { OnOk result (relocated_from room.now values.now
        (high_parts room.now values.now relocs.now) 0 relocs.now (areas_of text.old static_data.old)
        ≡ Ok (areas_of text.new static_data.new)) }
    ensures fault { IfErr result (λ fault. IsFault fault (relocated_from room.now values.now
        (high_parts room.now values.now relocs.now) 0 relocs.now
        (areas_of text.old static_data.old))) }
{
    let partners = partners(alloc, room, values, relocs)?;
    for (k, reloc) in relocs.iter().enumerate() {
        let at = field_address(room, reloc);
        let value = value_in(values, reloc);
        let partner = partners.get(&value).copied();
        if let Err(fault) = apply_in(text, static_data, reloc, at, value, partner) {
            return Err(PlaceFault::Reloc(k as u32, fault));
        }
    }
    Ok(())
}
