//! A module less that is live, which may still be taken back.

ghost use Rattle.std.specs.Prelude.{◌≡◌, ◌+◌, ◌<◌, ◌≤◌, IfOk, IfErr, OnOk, length, vec_len, vec_capacity};
ghost use Rattle.cfi_graph.specs.Cell.{cells_of};
ghost use Rattle.cfi_modules.specs.Series.{live_in, with_retired};
ghost use Rattle.cfi_ledger.specs.Roster.{HasRetired, IsBookOfRoster, IsBookOfSeries, IsFilled};

use crate::book::book_without;
use crate::roster::Roster;
use cfi_aux::Placed;
use cfi_graph::cells;
use cfi_modules::{Series, live_have_images, series_have_cells};
use cfi_plan::ModuleLine;
use cfi_policy::Book;
use cfi_unit::Fill;
use cfi_valid::Retirement;
use cfi_word::Image;
use std::alloc::{AllocError, Global};
use std::marker::Model;

/// The live modules without the one at a place, the cells with what names mean among these, and their book, with room
/// for the cells and for the retirement.
pub(crate) fn left(
    alloc: Global,
    series: &Series,
    place: usize,
    before: &Book,
    fills: &mut Vec<Fill>,
    retired: &mut Vec<Retirement>,
) -> Result<(Vec<Placed>, Vec<Fill>, Book), AllocError>
    requires within { place < length series.now.placed }
    requires book { IsBookOfSeries series.now before.now }
    ensures others { IfOk result (λ all. all.0.items ≡ live_in (with_retired series.now place)) }
    ensures cells { IfOk result (λ all. all.1.items
        ≡ cells_of (live_in (with_retired series.now place)) series.now.placed) }
    ensures book { IfOk result (λ all. IsBookOfSeries (with_retired series.now place) all.2) }
    ensures fills { fills.new.items ≡ fills.old.items }
    ensures retired { retired.new.items ≡ retired.old.items }
    ensures cells_fit { IfOk result (λ all. vec_len fills.new + vec_len all.1 ≤ vec_capacity fills.new) }
    ensures gone_fits { OnOk result (vec_len retired.new < vec_capacity retired.new) }
{
    series_have_cells();
    live_have_images();
    let others = series.others(place)?;
    let cells = cells(alloc, &others, series.modules())?;
    let book = book_without(alloc, series, place, &others, before)?;
    fills.reserve(cells.len())?;
    retired.reserve(1)?;
    Ok((others, cells, book))
}

/// The loaded modules, of which one may still be retired, and the book and the cells where it is.
#[derive(Drop)]
pub struct Departure {
    pub(crate) series: Series,
    pub(crate) lines: Vec<ModuleLine>,
    pub(crate) fills: Vec<Fill>,
    pub(crate) retired: Vec<Retirement>,
    pub(crate) place: usize,
    pub(crate) others: Vec<Placed>,
    pub(crate) gone: Retirement,
    pub(crate) cells: Vec<Fill>,
    pub(crate) book: Book,
    pub(crate) alloc: Global,
}

impl Model for Departure {
    ghost use Rattle.cfi_ledger.specs.Roster.{Candidate, departure_of, IsDeparture};

    ghost Value = { Candidate };

    ghost view = { departure_of };

    ghost invariant = { IsDeparture };
}

impl Departure {
    /// The image where it is retired.
    pub fn image(&self) -> &Image
        ensures { result.now ≡ self.now.book.image }
    {
        self.book.image()
    }

    /// The second step of a retirement: the module is not live, and the cells take the place of those before. It takes
    /// no memory.
    pub fn commit(self) -> (Roster, Book)
        ensures { result ≡ (self.roster, self.book) }
    {
        let Departure {
            mut series,
            lines,
            mut fills,
            mut retired,
            place,
            others,
            gone,
            mut cells,
            book,
            alloc,
        } = self;
        series.retire(place, others);
        retired.push_reserved(gone);
        fills.truncate(lines.len());
        fills.append(&mut cells).unwrap();
        let roster = Roster {
            series,
            lines,
            fills,
            retired,
            alloc,
        };
        (roster, book)
    }

    /// The loaded modules as they were: a retirement that is not made. It takes no memory.
    pub fn discard(self) -> Roster
        ensures { result ≡ self.before }
    {
        let Departure {
            series,
            lines,
            fills,
            retired,
            place: _,
            others: _,
            gone: _,
            cells: _,
            book: _,
            alloc,
        } = self;
        Roster {
            series,
            lines,
            fills,
            retired,
            alloc,
        }
    }
}

impl Roster {
    /// Takes all memory of retiring the module at a place with a policy: the other live ones, the book of these, and
    /// the cells. Without memory they stay as they are.
    pub fn depart(self, place: usize, policy: u32, before: &Book) -> Result<Departure, Roster>
        requires within { place < length self.placed }
        requires book { IsBookOfRoster self before.now }
        ensures ok { IfOk result (λ departure. HasRetired place policy self departure.roster) }
        ensures before { IfOk result (λ departure. departure.before ≡ self) }
        ensures book { IfOk result (λ departure. IsBookOfRoster departure.roster departure.book) }
        ensures cells { IfOk result (λ departure. IsFilled departure.roster) }
        ensures same { IfErr result (λ roster. roster ≡ self) }
    {
        let Roster {
            series,
            lines,
            mut fills,
            mut retired,
            alloc,
        } = self;
        match left(alloc, &series, place, before, &mut fills, &mut retired) {
            Ok((others, cells, book)) => {
                let gone = Retirement {
                    number: lines[place].number,
                    policy,
                };
                Ok(Departure {
                    series,
                    lines,
                    fills,
                    retired,
                    place,
                    others,
                    gone,
                    cells,
                    book,
                    alloc,
                })
            }
            Err(_) => Err(Roster {
                series,
                lines,
                fills,
                retired,
                alloc,
            }),
        }
    }
}
