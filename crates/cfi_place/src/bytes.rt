//! The bytes of a placed module.

ghost use Rattle.std.specs.Prelude.{◌≡◌, ◌+◌, ◌*◌, ◌<◌, ◌≤◌, ◌^◌, Ok, length, IfOk, IfErr};
ghost use Rattle.elf_read.specs.Sound.{IsSoundObject};
ghost use Rattle.cfi_place.specs.Relocated.{areas_of};
ghost use Rattle.cfi_place.specs.Placed.{IsRoom, IsFault, placed_by};

use crate::defined::check_defined;
use crate::fault::PlaceFault;
use crate::relocated::relocate;
use crate::room::Room;
use crate::sizes::check_sizes;
use elf_read::Object;
use std::alloc::Global;

/// The bytes of an object's text and data, with its relocations done, or the first fault.
///
/// `values` are those of its symbols.
pub fn placed_bytes(
    alloc: Global,
    object: &Object,
    room: &Room,
    values: &[Option<u32>],
) -> Result<(Vec<u8>, Vec<u8>), PlaceFault>
    requires sound { IsSoundObject object.now }
    requires room { IsRoom room.now }
    requires text { 4 * room.now.base + length object.now.text < 2 ^ 32 }
    requires static_data { room.now.data_base + length object.now.static_data < 2 ^ 32 }
    requires relocs { length object.now.relocs ≤ 2 ^ 32 }
    ensures ok { IfOk result (λ bytes. placed_by object.now room.now values.now
        ≡ Ok (areas_of bytes.0.items bytes.1.items)) }
    ensures same { IfOk result (λ bytes. length bytes.0.items ≡ length object.now.text) }
    ensures kept { IfOk result (λ bytes. length bytes.1.items ≡ length object.now.static_data) }
    ensures words { IfOk result (λ _. length object.now.text < 2 ^ 19) }
    ensures fault { IfErr result (λ fault.
        IsFault fault (placed_by object.now room.now values.now)) }
{
    let relocs = object.relocs.as_slice();
    check_defined(alloc, object.symbols.as_slice(), values, relocs)?;
    check_sizes(object, room)?;
    let mut text = Vec::from_slice(alloc, object.text.as_slice())?;
    let mut static_data = Vec::from_slice(alloc, object.static_data.as_slice())?;
    relocate(
        alloc,
        text.as_mut_slice(),
        static_data.as_mut_slice(),
        room,
        values,
        relocs,
    )?;
    Ok((text, static_data))
}
