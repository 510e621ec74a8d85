//! A world of two guests: a refresh, and an open in vain.

ghost use Rattle.std.specs.Prelude.{◌≡◌, None, IfOk};
ghost use Rattle.cfi_word.specs.declared.limits.TheConstants.{MIN_CODE_WORDS};
ghost use Rattle.cfi_world.specs.Example.{open_image, open_world};
ghost use Rattle.cfi_world.specs.Premises.{HasRoom};

use cfi_values::Numbers;
use cfi_word::{Image, Layout};
use cfi_world::{Answer, Event, Phase, Turned, World};
use rv_guest::{Guest, Stop};
use std::alloc::{AllocError, Global};

// Two modules, `addi x17,x0,4`, `ecall`, `j .`, and `j .` alone; words by GNU as 2.40.
fn image(alloc: Global) -> Result<Image, AllocError>
    ensures { IfOk result (λ image. image ≡ open_image) }
{
    let mut code = vec![in alloc; 0u32; 1_024]?;
    code[16] = 0x0040_0893;
    code[17] = 0x0000_0073;
    code[18] = 0x0000_006f;
    code[19] = 0x0000_006f;
    Ok(Image {
        tary: Numbers::from_vec(vec![in alloc; 0u32; 1_024]?),
        bary: Numbers::from_vec(vec![in alloc; 16_383u32; 74]?),
        code: Numbers::from_vec(code),
    })
}

// A guest of each module, three versions, and fuel for three instructions.
fn world(alloc: Global, layout: Layout) -> Result<World, AllocError>
    requires { layout ≡ MIN_CODE_WORDS }
    ensures { IfOk result (λ world. world ≡ open_world) }
{
    let mut guests = Vec::new(alloc);
    guests.push(Guest::open(alloc, 0, 0x40, &[])?)?;
    guests.push(Guest::open(alloc, 1, 0x4c, &[])?)?;
    World::open(alloc, layout, 3, 0, image(alloc)?, guests, 3, 3)
}

// Whether a refresh is made: 16 QUIET words, 1,024 Tary words, EPOCH and 74 Bary words.
fn is_refreshed(world: &mut World) -> bool
    requires { HasRoom world.old None }
{
    let mut did = world.turn(Event::Begin(None)) == Turned::Did;
    for _ in 0..16 + 1_024 + 1 + 74 {
        did = did && world.turn(Event::Update) == Turned::Did;
    }
    did && world.turn(Event::Update) == Turned::Nothing
        && (world.phase(), world.updates()) == (Phase::Idle, 1)
        && (world.epoch(), world.policy()) == (1, 0)
}

// Whether guest 0 asks for module 0, and that is answered in vain.
fn is_answered(world: &mut World) -> bool {
    let mut did = true;
    for _ in 0..2 {
        did = did && world.turn(Event::Guest(0)) == Turned::Did;
    }
    let asks = Turned::Asks {
        guest: 0,
        module: 0,
    };
    let has_asked = world.turn(Event::Guest(0)) == asks;
    let answer = Answer {
        address: 0,
        cause: 10,
        policy: world.policy(),
        fills: &[],
    };
    did && has_asked && world.turn(Event::Answer(0, answer)) == Turned::Did
}

// Whether guest 0 makes its quiescent point, and the fuel stops it with its next fetch; it is released then.
fn is_released(world: &mut World) -> bool {
    let mut did = true;
    for _ in 0..3 {
        did = did && world.turn(Event::Guest(0)) == Turned::Did;
    }
    let stops = world.guests().first().and_then(Guest::stop);
    did && stops == Some(Stop::Fuel) && world.turn(Event::Release(0)) == Turned::Did
}

/// A refresh is made; then guest 0 opens module 0 in vain, and the fuel stops it.
pub fn turns(alloc: Global) -> Result<bool, AllocError> {
    let mut world = world(alloc, Layout::new(1_024).unwrap())?;
    Ok(is_refreshed(&mut world) && is_answered(&mut world) && is_released(&mut world))
}
