//! A guest's slip.

ghost use Rattle.std.specs.Prelude.{◌≡◌};

use crate::pad::Place;
use crate::rule::SlipsName;
use std::marker::{Model, PhantomData};

/// By it a line is told in its guest's name, and by nothing else. It has no bytes but its guest's number.
#[derive(Drop)]
pub struct Slip<N: SlipsName> {
    pub(crate) seat: Place,
    pub(crate) guest: u32,
    pub(crate) of: PhantomData<N>,
}

// Clauses see what it says.
impl<N: SlipsName> Model for Slip<N> {
    ghost use Rattle.cfi_slips.specs.Stubs.{slip_of};
    ghost use Rattle.cfi_slips.specs.inner.Seats.{IsSlip};
    ghost use Rattle.cfi_slips.specs.declared.view.SlipView.{SlipView};

    ghost Value = { SlipView };

    ghost view = { λ a. slip_of a.seat.me.0 };

    ghost invariant = { λ a. IsSlip N.slips a.seat.table_id a.seat.me a.guest };
}

impl<N: SlipsName> Slip<N> {
    /// The guest's number.
    pub fn guest(&self) -> u32
        ensures { result ≡ self.now.guest }
    {
        self.guest
    }
}
