//! The world.

ghost use Rattle.std.specs.Prelude.{◌≡◌, ◌-◌, ◌≤◌, ◌++◌, IfOk, replicate};
ghost use Rattle.cfi_word.specs.declared.limits.TheConstants.{GUESTS};
ghost use Rattle.cfi_model.specs.declared.quiet.Quiet.TheVariants.{Published, Unregistered};
ghost use Rattle.cfi_model.specs.Phases.{phase_of};
ghost use Rattle.cfi_model.specs.Words.{epoch_in_force, policy_in_force};
ghost use Rattle.cfi_model.specs.World.{opened_world};
ghost use Rattle.cfi_world.specs.Premises.{CanOpen, MayTurn};
ghost use Rattle.cfi_world.specs.Turns.{Turns};

use crate::event::{Event, Turned};
use crate::tables::Tables;
use cfi_model::{Phase, Point, Quiet};
use cfi_word::limits::GUESTS;
use cfi_word::{Image, Layout};
use rv_guest::Guest;
use std::alloc::{AllocError, Global};
use std::marker::Model;

mod points;
mod turns;
mod words;

/// The shared tables, and the guests that run over them.
#[derive(Drop)]
pub struct World {
    tables: Tables,
    quiets: [Quiet; GUESTS as usize],
    guests: Vec<Guest>,
    points: [Point; GUESTS as usize],
    fuel: u32,
    updates: u32,
}

impl Model for World {
    ghost use Rattle.cfi_model.specs.World.{World as Whole};
    ghost use Rattle.cfi_world.specs.inner.Kept.{kept_world, IsKeptWorld};

    ghost Value = { Whole };

    ghost view = { kept_world };

    ghost invariant = { IsKeptWorld };
}

// The first guests are registered at an epoch.
fn registered(count: usize, epoch: u32) -> [Quiet; GUESTS as usize]
    requires { count ≤ GUESTS }
    ensures { result
        ≡ replicate count (Published epoch) ++ replicate (GUESTS - count) Unregistered }
{
    let mut quiets = [Quiet::Unregistered; GUESTS as usize];
    for k in 0..count {
        quiets[k] = Quiet::Published(epoch);
    }
    quiets
}

impl World {
    /// Opens a world of these guests over the tables of an image, with room for `room` updates.
    ///
    /// Guest k is as `Guest::open` leaves it with the number k, at a start of the image; there are at most 16. IDs have
    /// `versions` versions, 3 to 16,384, and the first epoch is at most 16,777,215. The image is closed. A guest
    /// stops with Fuel before it would fetch more than `fuel` instructions, at least 1.
    pub fn open(
        alloc: Global,
        layout: Layout,
        versions: u32,
        first: u32,
        image: Image,
        guests: Vec<Guest>,
        room: u32,
        fuel: u32,
    ) -> Result<World, AllocError>
        requires { CanOpen layout versions first image guests.items fuel }
        ensures { IfOk result (λ world. world ≡
            opened_world layout versions first image guests.items room fuel) }
    {
        let quiets = registered(guests.len(), first);
        let tables = Tables::open(alloc, layout, versions, first, image, room)?;
        Ok(World {
            tables,
            quiets,
            guests,
            points: [Point::Outside; GUESTS as usize],
            fuel,
            updates: 0,
        })
    }

    // It is inlined, so that where the kind of event is known nothing is made of it and looked at again.
    /// Makes an event happen, and says what came of it. It takes no memory.
    ///
    /// A Begin comes while fewer updates than there is room for have begun; its image is closed, agrees with the one
    /// in force at each code word that is not 0 there, and the policy in force is below 255. An answer has the policy
    /// in force, and its fills lie inside private data.
    #[inline(always)]
    pub fn turn(&mut self, event: Event<'_>) -> Turned
        requires { MayTurn self.old event }
        ensures { Turns self.old event.entry self.new result }
    {
        match event {
            Event::Guest(guest) => self.go(guest),
            Event::Begin(image) => self.begin(image),
            Event::Update => self.update(),
            Event::Answer(guest, answer) => self.answer(guest, &answer),
            Event::Release(guest) => self.release(guest),
        }
    }

    /// How many updates began.
    pub fn updates(&self) -> u32
        ensures { result ≡ self.now.updates }
    {
        self.updates
    }

    /// The phase of the newest update.
    pub fn phase(&self) -> Phase
        ensures { result ≡ phase_of self.now.tables }
    {
        self.tables.phase()
    }

    /// The epoch in force, which the word EPOCH tells.
    pub fn epoch(&self) -> u32
        ensures { result ≡ epoch_in_force self.now.tables }
    {
        self.tables.epoch()
    }

    /// The policy in force, which the word EPOCH tells.
    pub fn policy(&self) -> u32
        ensures { result ≡ policy_in_force self.now.tables }
    {
        self.tables.policy()
    }

    /// The guests by number.
    pub fn guests(&self) -> &[Guest]
        ensures { result.now ≡ self.now.guests }
    {
        self.guests.as_slice()
    }
}
