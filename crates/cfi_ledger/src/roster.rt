//! The loaded modules, with what a report says of each and the data that came with it.

ghost use Rattle.std.specs.Prelude.{◌≡◌, [], IfOk, IfErr, IfSome, IfNone, OnOk, length, nat_le};
ghost use Rattle.cfi_aux.specs.declared.placed.Placed.{Placed as PlacedModule};
ghost use Rattle.cfi_modules.specs.Loaded.{AreAmong, AreLoaded};
ghost use Rattle.cfi_modules.specs.Image.{IsOrderedImage};
ghost use Rattle.cfi_modules.specs.Series.{CanBeTaken, IsRefusedBy, IsSeries, JoinsTo};
ghost use Rattle.cfi_ledger.specs.Force.{count_by_policy};
ghost use Rattle.cfi_ledger.specs.Loads.{IsListed, IsUnlisted};
ghost use Rattle.cfi_ledger.specs.Roster.{series_of, live_placed, HasJoined, IsBookOfRoster, IsFilled, IsImageOfRoster};
ghost use Rattle.cfi_policy.specs.Book.{KeepsNumbers};
ghost use Rattle.cfi_policy.specs.Image.{HaveImage};
ghost use Rattle.cfi_valid.specs.declared.limits.TheConstants.{MAX_LOADED};

use crate::book::booked;
use crate::candidate::Candidate;
use crate::entrant::{Entrant, brought, taken};
use cfi_aux::{Module, Placed};
use cfi_modules::{JoinFault, Series};
use cfi_plan::ModuleLine;
use cfi_policy::Book;
use cfi_unit::Fill;
use cfi_valid::{MAX_LOADED, Retirement};
use cfi_word::{Image, Layout};
use std::alloc::{AllocError, Global};
use std::marker::Model;

/// The loaded modules, in load order.
#[derive(Drop)]
pub struct Roster {
    pub(crate) series: Series,
    pub(crate) lines: Vec<ModuleLine>,
    pub(crate) fills: Vec<Fill>,
    pub(crate) retired: Vec<Retirement>,
    pub(crate) alloc: Global,
}

impl Model for Roster {
    ghost use Rattle.cfi_ledger.specs.Roster.{Roster, roster_of, IsRoster};

    ghost Value = { Roster };

    ghost view = { roster_of };

    ghost invariant = { IsRoster };
}

/// The loaded modules as they were, and why one does not join them.
#[derive(Drop)]
pub struct Unjoined {
    /// The loaded modules.
    pub roster: Roster,
    /// Why it does not join them.
    pub fault: JoinFault,
}

impl Roster {
    /// No modules, in the code words of the layout. It takes no memory.
    pub fn new(alloc: Global, layout: &Layout) -> Roster
        ensures { result
            ≡ record {
              code_words = layout.now;
              lines = [];
              placed = [];
              flags = [];
              retired = [];
              cells = [];
            } }
    {
        Roster {
            series: Series::new(alloc, layout),
            lines: Vec::new(alloc),
            fills: Vec::new(alloc),
            retired: Vec::new(alloc),
            alloc,
        }
    }

    /// Adds a module, as `Series::add` does. No cells are filled.
    pub fn add(self, entrant: &Entrant<'_>, unplaced: &Module) -> Result<Roster, JoinFault>
        requires { CanBeTaken unplaced.now }
        ensures ok { IfOk result (λ roster. HasJoined entrant.now.number entrant.now.name.now
            entrant.now.policy unplaced.now self roster) }
        ensures fault { IfErr result (IsRefusedBy (series_of self) unplaced.now) }
    {
        let Roster {
            mut series,
            mut lines,
            mut fills,
            retired,
            alloc,
        } = self;
        series.add(unplaced)?;
        let placed = &series.modules()[lines.len()];
        let (line, fill) = taken(alloc, entrant, placed, 0, &mut lines, &mut fills)?;
        fills.truncate(lines.len());
        lines.push_reserved(line);
        fills.push_reserved(fill);
        Ok(Roster {
            series,
            lines,
            fills,
            retired,
            alloc,
        })
    }

    /// Whether a module joins the others, as `Series::joins` tells. No image is made.
    pub fn joins(&mut self, unplaced: &Module) -> Result<(), JoinFault>
        requires { CanBeTaken unplaced.now }
        ensures ok { OnOk result
            ((one : PlacedModule) × JoinsTo (series_of self.old) unplaced.now one) }
        ensures fault { IfErr result (IsRefusedBy (series_of self.old) unplaced.now) }
        ensures same { self.new ≡ self.old }
    {
        self.series.joins(unplaced)
    }

    /// Places and verifies a module behind the others, and makes the book of all, behind that of the others, and the
    /// cells of all: the first step of a load.
    ///
    /// All memory that the load takes is taken here.
    pub fn prepare(
        self,
        entrant: &Entrant<'_>,
        unplaced: &Module,
        before: &Book,
    ) -> Result<Candidate, Unjoined>
        requires can { CanBeTaken unplaced.now }
        requires book { IsBookOfRoster self before.now }
        ensures ok { IfOk result (λ candidate. HasJoined entrant.now.number entrant.now.name.now
            entrant.now.policy unplaced.now self candidate.roster) }
        ensures before { IfOk result (λ candidate. candidate.before ≡ self) }
        ensures book { IfOk result (λ candidate. IsBookOfRoster candidate.roster candidate.book) }
        ensures kept { IfOk result (λ candidate.
            KeepsNumbers (live_placed candidate.roster) before.now.image candidate.book.image) }
        ensures cells { IfOk result (λ candidate. IsFilled candidate.roster) }
        ensures fault { IfErr result (λ unjoined.
            IsRefusedBy (series_of self) unplaced.now unjoined.fault) }
        ensures same { IfErr result (λ unjoined. unjoined.roster ≡ self) }
    {
        let Roster {
            series,
            mut lines,
            mut fills,
            retired,
            alloc,
        } = self;
        let (prepared, book) = match booked(alloc, series, unplaced, before) {
            Ok((prepared, book)) => (prepared, book),
            Err(refused) => {
                let roster = Roster {
                    series: refused.series,
                    lines,
                    fills,
                    retired,
                    alloc,
                };
                return Err(Unjoined {
                    roster,
                    fault: refused.fault,
                });
            }
        };
        let placed = &prepared.series().modules()[lines.len()];
        match brought(
            alloc,
            entrant,
            prepared.series(),
            placed,
            &mut lines,
            &mut fills,
        ) {
            Ok((line, fill, cells)) => Ok(Candidate {
                prepared,
                lines,
                fills,
                retired,
                line,
                fill,
                cells,
                book,
                alloc,
            }),
            Err(_) => {
                let roster = Roster {
                    series: prepared.discard(),
                    lines,
                    fills,
                    retired,
                    alloc,
                };
                Err(Unjoined {
                    roster,
                    fault: JoinFault::Memory,
                })
            }
        }
    }

    /// What a report says of each.
    pub fn lines(&self) -> &[ModuleLine]
        ensures value { result.now ≡ self.now.lines }
        ensures many { length self.now.lines ≡ length self.now.placed }
    {
        &self.lines
    }

    // Whether no further module may be loaded.
    pub(crate) fn is_full(&self) -> bool
        ensures { result ≡ nat_le MAX_LOADED (length self.now.lines) }
    {
        self.lines.len() >= MAX_LOADED as usize
    }

    /// What placing made of each.
    pub fn modules(&self) -> &[Placed]
        ensures value { result.now ≡ self.now.placed }
        ensures series { IsSeries self.now.code_words self.now.placed }
        ensures loaded { AreLoaded self.now.code_words self.now.placed }
    {
        self.series.modules()
    }

    /// What placing made of the live ones.
    pub fn live(&self) -> &[Placed]
        ensures value { result.now ≡ live_placed self.now }
        ensures among { AreAmong (live_placed self.now) self.now.placed }
        ensures image { HaveImage (live_placed self.now) self.now.code_words }
    {
        self.series.live()
    }

    /// For each, whether it is live.
    pub fn flags(&self) -> &[bool]
        ensures value { result.now ≡ self.now.flags }
        ensures many { length result.now ≡ length self.now.placed }
    {
        self.series.flags()
    }

    /// Those that were retired, in that order.
    pub fn retired(&self) -> &[Retirement]
        ensures { result.now ≡ self.now.retired }
    {
        &self.retired
    }

    /// The image of all under the policy of all, with its classes in the order of their least slots.
    pub fn image(&self) -> Result<Image, AllocError>
        ensures image { IfOk result (IsImageOfRoster self.now) }
        ensures ordered { IfOk result (IsOrderedImage self.now.placed) }
    {
        self.series.image()
    }

    /// How many of them a policy finds loaded.
    pub fn count_by_policy(&self, policy: u32) -> usize
        ensures { result ≡ count_by_policy policy self.now }
    {
        let mut count = 0;
        for line in &self.lines {
            if line.policy <= policy {
                count += 1;
            }
        }
        count
    }

    /// What a report says of each.
    pub fn into_lines(self) -> Vec<ModuleLine>
        ensures { result.items ≡ self.lines }
    {
        self.lines
    }

    /// The place in load order of the module of this number.
    pub fn find(&self, number: u32) -> Option<usize>
        ensures some { IfSome result (IsListed self.now number) }
        ensures none { IfNone result (IsUnlisted self.now number) }
    {
        for (at, line) in self.lines.iter().enumerate() {
            if line.number == number {
                return Some(at);
            }
        }
        None
    }
}
