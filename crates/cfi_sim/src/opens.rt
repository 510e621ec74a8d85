//! What opens find, and their answers.

ghost use Rattle.std.specs.Prelude.{◌≡◌, [], drop, length};
ghost use Rattle.cfi_ledger.specs.Roster.{loaded_of};
ghost use Rattle.cfi_model.specs.Service.{reply_of};
ghost use Rattle.cfi_modules.specs.Entry.{HasAddresses};
ghost use Rattle.cfi_sim.specs.Agrees.{NumbersAreApart};
ghost use Rattle.cfi_sim.specs.Events.{IsFound, found_reply};
ghost use Rattle.cfi_sim.specs.inner.Loaded.{FindsIn};
ghost use Rattle.cfi_world.specs.Turns.{reply_in};
ghost use Rattle.cfi_world.specs.Updates.{is_idle};

use crate::found::Found;
use crate::limits::NOT_LOADED;
use cfi_aux::Placed;
use cfi_ledger::{Roster, open_answer};
use cfi_model::{Answer, Phase};
use cfi_modules::{first_global, loaded_have_entries};
use cfi_plan::Plan;
use cfi_unit::Fill;
use cfi_word::services::NO_MODULE;
use cfi_world::World;

/// Whether no update is under way.
pub fn is_idle(phase: Phase) -> bool
    ensures { result ≡ is_idle phase }
{
    match phase {
        Phase::Idle => true,
        Phase::Testing(_) | Phase::Code(_) | Phase::Tary(_) | Phase::Epoch | Phase::Bary(_) =>
            false,
    }
}

// What an open finds of a module that is loaded.
fn found_in(world: &World, one: &Placed) -> Found
    requires { HasAddresses one.now }
    ensures { FindsIn world.now one.now result }
{
    match first_global(one) {
        None => Found::Functionless,
        Some(address) if is_idle(world.phase()) => Found::Opened(address),
        Some(_) => Found::Unloaded,
    }
}

/// What an open of a module finds.
pub fn find(plan: &Plan, world: &World, roster: &Roster, number: u32) -> Found
    requires many { length roster.now.lines ≡ length roster.now.placed }
    requires apart { NumbersAreApart (loaded_of roster.now.lines roster.now.placed) }
    ensures { IsFound plan.now world.now (loaded_of roster.now.lines roster.now.placed) number
        result }
{
    if number as usize >= plan.modules.len() {
        return Found::Unknown;
    }
    loaded_have_entries();
    match roster.find(number) {
        None => Found::Unloaded,
        Some(at) => found_in(world, &roster.modules()[at]),
    }
}

// An answer that opens nothing, for this cause.
fn refusal<'a>(policy: u32, cause: u32) -> Answer<'a>
    ensures { reply_in result ≡ reply_of 0 cause policy [] }
{
    Answer {
        address: 0,
        cause,
        policy,
        fills: &[],
    }
}

impl Found {
    /// The answer to an open that finds this, with the fills from one on.
    pub fn answer<'a>(self, policy: u32, fills: &'a [Fill], first: usize) -> Answer<'a>
        ensures { reply_in result ≡ found_reply self policy (drop first fills.now) }
    {
        match self {
            Found::Unknown => refusal(policy, NO_MODULE),
            Found::Functionless => open_answer(None, policy, fills, first),
            Found::Opened(address) => open_answer(Some(address), policy, fills, first),
            Found::Unloaded => refusal(policy, NOT_LOADED),
        }
    }
}
