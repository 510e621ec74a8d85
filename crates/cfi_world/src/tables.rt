//! The shared tables of a world. No table of words is kept: each word follows from the entries and the number of
//! stores.

ghost use Rattle.std.specs.Prelude.{◌≡◌, ◌<◌, ◌≤◌, IfOk};
ghost use Rattle.cfi_word.specs.declared.limits.TheConstants.{MIN_VERSIONS, MAX_VERSIONS, MAX_EPOCH};
ghost use Rattle.cfi_word.specs.Table.{IsSize};
ghost use Rattle.cfi_model.specs.Closed.{IsClosed};
ghost use Rattle.cfi_model.specs.Phases.{phase_of};
ghost use Rattle.cfi_model.specs.Words.{next_epoch, opened_tables};
ghost use Rattle.cfi_model.specs.World.{first_entry};
ghost use Rattle.cfi_world.specs.Updates.{is_idle};

use crate::stores::{phase_after, stores};
use cfi_model::Phase;
use cfi_word::limits::MAX_POLICY;
use cfi_word::{Image, Layout};
use std::alloc::{AllocError, Global};
use std::marker::Model;

mod updates;
mod words;

/// The tables: a policy for each epoch from the first on, and an image for each policy.
#[derive(Debug, Drop)]
pub struct Tables {
    layout: Layout,
    versions: u32,
    first: u32,
    images: Vec<Image>,
    policies: Vec<u32>,
    room: u32,
    stored: u32,
    // The update whose test is under way; a refresh has no image.
    asked: Option<Option<Image>>,
    tested: u32,
}

// Clauses see the entries, and for how many updates there is room.
impl Model for Tables {
    ghost use Rattle.cfi_world.specs.inner.Held.{Held, held_by, AreHeldTables};

    ghost Value = { Held };

    ghost view = { held_by };

    ghost invariant = { AreHeldTables };
}

impl Tables {
    /// The tables of this image, whose policy is 0, with room for so many updates.
    pub fn open(
        alloc: Global,
        layout: Layout,
        versions: u32,
        first: u32,
        image: Image,
        room: u32,
    ) -> Result<Tables, AllocError>
        requires least { MIN_VERSIONS ≤ versions }
        requires most { versions ≤ MAX_VERSIONS }
        requires first { first ≤ MAX_EPOCH }
        requires closed { IsClosed layout image }
        ensures size { IsSize layout }
        ensures ok { IfOk result (λ t. t ≡ record {
          tables = opened_tables layout versions first (first_entry image);
          room = room;
        }) }
    {
        let stored = stores(&layout);
        let mut images = Vec::with_capacity(alloc, MAX_POLICY as usize + 1)?;
        let mut policies = Vec::with_capacity(alloc, room as usize + 1)?;
        images.push_reserved(image);
        policies.push_reserved(0);
        Ok(Tables {
            layout,
            versions,
            first,
            images,
            policies,
            room,
            stored,
            asked: None,
            tested: 0,
        })
    }

    /// The number of code words.
    pub fn code_words(&self) -> u32
        ensures value { result ≡ self.now.tables.code_words }
        ensures some { 0 < self.now.tables.code_words }
    {
        self.layout.code_words()
    }

    /// The number of versions.
    pub fn versions(&self) -> u32
        ensures value { result ≡ self.now.tables.versions }
        ensures least { 2 ≤ result }
    {
        self.versions
    }

    /// The epoch that the next update is to.
    pub fn next_epoch(&self) -> u32
        ensures { result ≡ next_epoch self.now.tables }
    {
        self.first + self.policies.len() as u32
    }

    /// The phase of the newest update.
    pub fn phase(&self) -> Phase
        ensures { result ≡ phase_of self.now.tables }
    {
        if self.asked.is_some() {
            return Phase::Testing(self.tested);
        }
        phase_after(&self.layout, self.stored)
    }

    /// Whether no update is under way.
    pub fn is_idle(&self) -> bool
        ensures { result ≡ is_idle (phase_of self.now.tables) }
    {
        match self.phase() {
            Phase::Idle => true,
            _ => false,
        }
    }
}
