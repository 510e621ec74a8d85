//! One module more.

ghost use Rattle.std.specs.Prelude.{◌+◌, ◌*◌, ◌<◌, ◌^◌, length, IfOk, IfErr};
ghost use Rattle.cfi_place.specs.Placed.{IsRoom, IsPlaced, IsFault, placed_in};
ghost use Rattle.cfi_modules.specs.inner.Index.{IsIndexOf};
ghost use Rattle.cfi_modules.specs.Order.{names_of, JoinsIn, IsFaultIn};
ghost use Rattle.cfi_modules.specs.Series.{CanBeTaken};

use crate::fault::JoinFault;
use crate::index::Index;
use crate::names::names_for;
use cfi_aux::{Module, Placed};
use cfi_place::{PlaceFault, Room, place};
use cfi_verify::{VerifyFault, verify};
use std::alloc::Global;

// The module in a room, with the names that others export.
fn place_behind(
    alloc: Global,
    live: &[Placed],
    index: &Index,
    unplaced: &Module,
    room: &Room,
) -> Result<Placed, PlaceFault>
    requires taken { CanBeTaken unplaced.now }
    requires index { IsIndexOf live.now index.now }
    requires room { IsRoom room.now }
    requires text { 4 * room.now.base + length unplaced.now.object.text < 2 ^ 32 }
    requires static_data { room.now.data_base + length unplaced.now.object.static_data < 2 ^ 32 }
    ensures ok { IfOk result (IsPlaced unplaced.now room.now (names_of live.now)) }
    ensures fault { IfErr result (λ fault.
        IsFault fault (placed_in unplaced.now.object room.now (names_of live.now))) }
{
    let names = names_for(alloc, index, live, unplaced.object.symbols.as_slice())?;
    place(alloc, unplaced, room, &names)
}

/// The module in a room; it verifies against the live modules.
///
/// `index` has the names that these export. `Place` comes before `Verify`.
pub fn join(
    alloc: Global,
    room: &Room,
    live: &[Placed],
    index: &Index,
    unplaced: &Module,
) -> Result<Placed, JoinFault>
    requires taken { CanBeTaken unplaced.now }
    requires room { IsRoom room.now }
    requires index { IsIndexOf live.now index.now }
    ensures ok { IfOk result (JoinsIn room.now live.now unplaced.now) }
    ensures fault { IfErr result (IsFaultIn room.now live.now unplaced.now) }
{
    let placed = match place_behind(alloc, live, index, unplaced, room) {
        Ok(placed) => placed,
        Err(PlaceFault::Memory) => return Err(JoinFault::Memory),
        Err(fault) => return Err(JoinFault::Place(fault)),
    };
    match verify(alloc, &placed, live) {
        Ok(()) => Ok(placed),
        Err(VerifyFault::Memory) => Err(JoinFault::Memory),
        Err(fault) => Err(JoinFault::Verify(fault)),
    }
}
