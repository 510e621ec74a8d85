//! The next free places.

ghost use Rattle.std.specs.Prelude.{◌≡◌, ◌+◌, ◌<◌, ◌^◌};
ghost use Rattle.cfi_place.specs.Placed.{IsRoom};
ghost use Rattle.cfi_modules.specs.Room.{first_room, room_behind, room_after};

use cfi_aux::Placed;
use cfi_place::Room;
use cfi_word::map::{DATA_ALIGNMENT, DATA_START, FIRST_BASE};

// The room of the first module.
fn first_room(code_words: u32) -> Room
    ensures { result ≡ first_room code_words }
{
    Room {
        base: FIRST_BASE,
        slot_base: 0,
        data_base: DATA_START,
        code_words,
    }
}

// The room behind a module.
fn room_behind(code_words: u32, placed: &Placed) -> Room
    requires { IsRoom (room_behind (first_room code_words) placed.now) }
    ensures { result ≡ room_behind (first_room code_words) placed.now }
{
    let end = placed.data_base + placed.static_data.as_slice().len() as u32;
    Room {
        base: placed.base + placed.words.as_slice().len() as u32,
        slot_base: placed.slot_base + placed.branches.as_slice().len() as u32,
        data_base: end.next_multiple_of(DATA_ALIGNMENT as u32),
        code_words,
    }
}

/// The next free place behind some modules, which follow one another from the first place on.
pub fn room_after(code_words: u32, placed: &[Placed]) -> Room
    requires { IsRoom (room_after code_words placed.now) }
    ensures { result ≡ room_after code_words placed.now }
{
    match placed {
        [] => first_room(code_words),
        [.., last] => room_behind(code_words, last),
    }
}
