//! A module that is placed, and taken later.

ghost use Rattle.std.specs.Prelude.{◌≡◌, IfOk, IfErr, OnOk, OnErr};
ghost use Rattle.cfi_ledger.specs.Roster.{line_by, series_of, with_offer, IsImageOfRoster, IsOffer};
ghost use Rattle.cfi_modules.specs.Image.{IsImageOfSeries, IsOrderedImage};
ghost use Rattle.cfi_modules.specs.Series.{HasJoined, IsRefusedBy, CanBeTaken, CanRejoin};

use crate::entrant::{Entrant, fill_of, line_of};
use crate::roster::Roster;
use cfi_aux::{Module, Placed};
use cfi_modules::{JoinFault, Prepared, Refused, Series};
use cfi_plan::ModuleLine;
use cfi_unit::Fill;
use cfi_word::Image;
use std::alloc::{AllocError, Global};
use std::marker::Model;
use std::mem;

/// Places and verifies a module behind those of a series, and makes the image of all.
pub(crate) fn imaged(series: Series, unplaced: &Module) -> Result<(Prepared, Image), Refused>
    requires { CanBeTaken unplaced.now }
    ensures ok { IfOk result (λ pair. HasJoined series pair.0 unplaced.now) }
    ensures image { IfOk result (λ pair. IsImageOfSeries pair.0 pair.1) }
    ensures ordered { IfOk result (λ pair. IsOrderedImage pair.0.placed pair.1) }
    ensures fault { IfErr result (λ refused.
        IsRefusedBy series unplaced.now refused.fault) }
    ensures same { IfErr result (λ refused. refused.series ≡ series) }
{
    let prepared = series.prepare(unplaced)?;
    match prepared.series().image() {
        Ok(image) => Ok((prepared, image)),
        Err(_) => Err(Refused {
            series: prepared.discard(),
            fault: JoinFault::Memory,
        }),
    }
}

/// What placing made of a module, with its line and its data, for `Roster::take`.
#[derive(Drop)]
pub struct Offer {
    pub(crate) placed: Placed,
    pub(crate) line: ModuleLine,
    pub(crate) fill: Fill,
}

impl Model for Offer {
    ghost use Rattle.cfi_ledger.specs.Roster.{Offer, offer_of, HasItsData};

    ghost Value = { Offer };

    ghost view = { offer_of };

    ghost invariant = { HasItsData };
}

impl Offer {
    // What placing made of a module that is to join, with its line and its data.
    pub(crate) fn of(
        alloc: Global,
        entrant: &Entrant<'_>,
        placed: Placed,
    ) -> Result<Offer, AllocError>
        ensures placed { IfOk result (λ offer. offer.placed ≡ placed) }
        ensures line { IfOk result (λ offer. offer.line
            ≡ line_by entrant.now.number entrant.now.name.now entrant.now.policy placed) }
    {
        let line = line_of(alloc, entrant, &placed)?;
        let fill = fill_of(alloc, &placed)?;
        Ok(Offer { placed, line, fill })
    }

    /// The number of the module in its plan.
    pub fn number(&self) -> u32
        ensures { result ≡ self.now.line.number }
    {
        self.line.number
    }
}

impl Roster {
    /// Places and verifies a module behind the others, and makes the image of all, for a load that is made later by
    /// `take`. The others stay as they are.
    pub fn offer(
        &mut self,
        entrant: &Entrant<'_>,
        unplaced: &Module,
    ) -> Result<(Offer, Image), JoinFault>
        requires { CanBeTaken unplaced.now }
        ensures ok { IfOk result (λ pair. IsOffer entrant.now.number entrant.now.name.now
            entrant.now.policy unplaced.now self.old pair.0) }
        ensures image { IfOk result (λ pair. IsImageOfRoster (with_offer pair.0 self.old) pair.1) }
        ensures ordered { IfOk result (λ pair.
            IsOrderedImage (with_offer pair.0 self.old).placed pair.1) }
        ensures fault { IfErr result (IsRefusedBy (series_of self.old) unplaced.now) }
        ensures same { self.new ≡ self.old }
    {
        let empty = Series::new(self.alloc, &self.series.layout());
        let series = mem::replace(&mut self.series, empty);
        match imaged(series, unplaced) {
            Ok((prepared, image)) => {
                let (series, placed) = prepared.withdraw();
                self.series = series;
                let offer = Offer::of(self.alloc, entrant, placed)?;
                Ok((offer, image))
            }
            Err(refused) => {
                self.series = refused.series;
                Err(refused.fault)
            }
        }
    }

    /// Adds a module as it was offered, which joins the others still. It is not placed or verified again, and no cells
    /// are filled.
    ///
    /// Without memory the others stay as they are.
    pub fn take(&mut self, offer: Offer) -> Result<(), AllocError>
        requires { CanRejoin (series_of self.old) offer.placed }
        ensures ok { OnOk result (self.new ≡ with_offer offer self.old) }
        ensures same { OnErr result (self.new ≡ self.old) }
    {
        let Offer { placed, line, fill } = offer;
        self.lines.reserve(1)?;
        self.fills.reserve(1)?;
        self.series.rejoin(placed)?;
        self.fills.truncate(self.lines.len());
        self.lines.push_reserved(line);
        self.fills.push_reserved(fill);
        Ok(())
    }
}
