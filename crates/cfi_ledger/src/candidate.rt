//! A module more, which may still be taken back.

ghost use Rattle.std.specs.Prelude.{◌≡◌};

use crate::roster::Roster;
use cfi_modules::Prepared;
use cfi_plan::ModuleLine;
use cfi_policy::Book;
use cfi_unit::Fill;
use cfi_valid::Retirement;
use cfi_word::Image;
use std::alloc::Global;
use std::marker::Model;

/// The loaded modules with one more, which may still be taken back, and the book and the cells of all.
#[derive(Drop)]
pub struct Candidate {
    pub(crate) prepared: Prepared,
    pub(crate) lines: Vec<ModuleLine>,
    pub(crate) fills: Vec<Fill>,
    pub(crate) retired: Vec<Retirement>,
    pub(crate) line: ModuleLine,
    pub(crate) fill: Fill,
    pub(crate) cells: Vec<Fill>,
    pub(crate) book: Book,
    pub(crate) alloc: Global,
}

impl Model for Candidate {
    ghost use Rattle.cfi_ledger.specs.Roster.{Candidate, candidate_of, IsCandidate};

    ghost Value = { Candidate };

    ghost view = { candidate_of };

    ghost invariant = { IsCandidate };
}

impl Candidate {
    /// The image of all.
    pub fn image(&self) -> &Image
        ensures { result.now ≡ self.now.book.image }
    {
        self.book.image()
    }

    /// The second step of a load: its data and the cells of all take the place of the cells before. It takes no memory.
    pub fn commit(self) -> (Roster, Book)
        ensures { result ≡ (self.roster, self.book) }
    {
        let Candidate {
            prepared,
            mut lines,
            mut fills,
            retired,
            line,
            fill,
            mut cells,
            book,
            alloc,
        } = self;
        fills.truncate(lines.len());
        lines.push_reserved(line);
        fills.push_reserved(fill);
        fills.append(&mut cells).unwrap();
        let roster = Roster {
            series: prepared.commit(),
            lines,
            fills,
            retired,
            alloc,
        };
        (roster, book)
    }

    /// The loaded modules without it: a load that is not made. It takes no memory.
    pub fn discard(self) -> Roster
        ensures { result ≡ self.before }
    {
        let Candidate {
            prepared,
            lines,
            fills,
            retired,
            line: _,
            fill: _,
            cells: _,
            book: _,
            alloc,
        } = self;
        Roster {
            series: prepared.discard(),
            lines,
            fills,
            retired,
            alloc,
        }
    }
}
