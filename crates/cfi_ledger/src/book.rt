//! The book of the modules of a series.

ghost use Rattle.std.specs.Prelude.{◌≡◌, IfOk, IfErr};
ghost use Rattle.cfi_ledger.specs.Roster.{IsBookOfRoster, IsBookOfSeries, series_of};
ghost use Rattle.cfi_policy.specs.Book.{KeepsNumbers};
ghost use Rattle.cfi_policy.specs.Image.{HaveImage};
ghost use Rattle.cfi_modules.specs.Series.{live_in, with_retired, without_last, AreAllLive, EndsLive, HasJoined, IsRefusedBy, CanBeTaken};

use crate::roster::Roster;
use cfi_aux::{Module, Placed};
use cfi_modules::{JoinFault, Prepared, Refused, Series};
use cfi_policy::{Book, code_of};
use std::alloc::{AllocError, Global};

// The book of modules that are all live, with its classes in the order of their least slots.
fn book_of(alloc: Global, series: &Series) -> Result<Book, AllocError>
    requires { AreAllLive series.now }
    ensures { IfOk result (IsBookOfSeries series.now) }
{
    let layout = series.layout();
    let modules = series.modules();
    let code = code_of(alloc, modules, &layout)?;
    Book::of(alloc, modules, code.as_slice(), &layout)
}

// The book of the modules, of which the last is new, behind that of the others.
fn book_with_last(alloc: Global, series: &Series, before: &Book) -> Result<Book, AllocError>
    requires live { EndsLive series.now }
    requires book { IsBookOfSeries (without_last series.now) before.now }
    ensures book { IfOk result (IsBookOfSeries series.now) }
    ensures kept { IfOk result (λ book.
        KeepsNumbers (live_in series.now) before.now.image book.image) }
{
    let live = series.live();
    let last = series.flags().len() - 1;
    before.extended(alloc, &live[..live.len() - 1], &series.modules()[last])
}

/// The book of the modules without one of the live ones, with the code that all have.
pub(crate) fn book_without(
    alloc: Global,
    series: &Series,
    place: usize,
    others: &[Placed],
    before: &Book,
) -> Result<Book, AllocError>
    requires image { HaveImage others.now series.now.code_words }
    requires others { others.now ≡ live_in (with_retired series.now place) }
    requires book { IsBookOfSeries series.now before.now }
    ensures { IfOk result (IsBookOfSeries (with_retired series.now place)) }
{
    let code = before.image().code.as_slice();
    Book::of(alloc, others, code, &series.layout())
}

/// Places and verifies a module behind those of a series, and makes the book of all, behind that of the series.
pub(crate) fn booked(
    alloc: Global,
    series: Series,
    unplaced: &Module,
    before: &Book,
) -> Result<(Prepared, Book), Refused>
    requires can { CanBeTaken unplaced.now }
    requires book { IsBookOfSeries series before.now }
    ensures ok { IfOk result (λ pair. HasJoined series pair.0 unplaced.now) }
    ensures book { IfOk result (λ pair. IsBookOfSeries pair.0 pair.1) }
    ensures kept { IfOk result (λ pair.
        KeepsNumbers (live_in pair.0) before.now.image pair.1.image) }
    ensures fault { IfErr result (λ refused. IsRefusedBy series unplaced.now refused.fault) }
    ensures same { IfErr result (λ refused. refused.series ≡ series) }
{
    let prepared = series.prepare(unplaced)?;
    match book_with_last(alloc, prepared.series(), before) {
        Ok(book) => Ok((prepared, book)),
        Err(_) => Err(Refused {
            series: prepared.discard(),
            fault: JoinFault::Memory,
        }),
    }
}

impl Roster {
    /// The book of all, where all are live, with its classes in the order of their least slots.
    pub fn book(&self) -> Result<Book, AllocError>
        requires { AreAllLive (series_of self.now) }
        ensures { IfOk result (IsBookOfRoster self.now) }
    {
        book_of(self.alloc, &self.series)
    }
}
