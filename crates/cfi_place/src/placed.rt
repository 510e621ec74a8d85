//! Placing a module.

ghost use Rattle.std.specs.Prelude.{◌+◌, ◌*◌, ◌<◌, ◌≤◌, ◌^◌, length, IfOk, IfErr};
ghost use Rattle.cfi_aux.specs.Sound.{IsSoundModule};
ghost use Rattle.cfi_place.specs.Names.{find_in};
ghost use Rattle.cfi_place.specs.Placed.{IsRoom, IsPlaced, IsFault, placed_in};

use crate::bytes::placed_bytes;
use crate::fault::PlaceFault;
use crate::functions::placed_functions;
use crate::room::Room;
use crate::symbols::Symbols;
use crate::value::{see_values, values};
use crate::words::placed_words;
use cfi_aux::{Module, Placed, copied_branches, exports};
use cfi_values::{Bytes, Items};
use std::alloc::Global;

/// The module at the place `room`: its relocations are done, and its checks name the slots from `room.slot_base` on.
///
/// A name that the module leaves undefined has its own address where the module defines it too, else that of
/// `symbols`; an undefined weak symbol is else 0. The faults come in the order of `PlaceFault`. For sound modules, and
/// rooms in which addresses stay below 2^32. RISC-V ELF psABI, "Relocations".
pub fn place(
    alloc: Global,
    unplaced: &Module,
    room: &Room,
    symbols: &Symbols,
) -> Result<Placed, PlaceFault>
    requires sound { IsSoundModule unplaced.now }
    requires room { IsRoom room.now }
    requires text { 4 * room.now.base + length unplaced.now.object.text < 2 ^ 32 }
    requires static_data { room.now.data_base + length unplaced.now.object.static_data < 2 ^ 32 }
    requires relocs { length unplaced.now.object.relocs ≤ 2 ^ 32 }
    ensures ok { IfOk result (IsPlaced unplaced.now room.now (find_in symbols.now)) }
    ensures fault { IfErr result (λ fault.
        IsFault fault (placed_in unplaced.now.object room.now (find_in symbols.now))) }
{
    let object = &unplaced.object;
    see_values(object.symbols.as_slice());
    let exports = exports(alloc, &object.symbols, room.base, room.data_base)?;
    let values = values(alloc, room, &exports, symbols, object.symbols.as_slice())?;
    let (text, static_data) = placed_bytes(alloc, object, room, &values)?;
    let words = placed_words(alloc, object.text.as_slice(), &text, room.slot_base)?;
    let functions = unplaced.records.functions.as_slice();
    let functions = placed_functions(alloc, object.symbols.as_slice(), functions)?;
    Ok(Placed {
        base: room.base,
        slot_base: room.slot_base,
        data_base: room.data_base,
        words: Items::from_vec(words),
        static_data: Bytes::from_vec(static_data),
        functions: Items::from_vec(functions),
        branches: Items::from_vec(copied_branches(alloc, unplaced.records.branches.as_slice())?),
        types: unplaced.types.copied(alloc)?,
        exports,
    })
}
