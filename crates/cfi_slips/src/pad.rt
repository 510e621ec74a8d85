//! Stubs that have no name yet.

ghost use Rattle.std.specs.Prelude.{◌≡◌};

use crate::rule::Law;
use crate::view::View;
use atomic_table::{Seat, Table};
use std::alloc::{AllocError, Global};
use std::marker::Model;

/// The one word, under the rule.
pub type Words = Table<(), View, (), Law, Global>;

/// A seat at it.
pub type Place = Seat<(), View>;

/// Stubs of which no slip was issued. They have no name yet.
#[derive(Drop)]
pub struct Pad {
    pub(crate) words: Words,
    pub(crate) seat: Place,
}

// Clauses see which slips it is for.
impl Model for Pad {
    ghost use Rattle.atomic_table.specs.Seated.{TableId};
    ghost use Rattle.cfi_slips.specs.inner.Seats.{IsPad};

    ghost Value = { TableId };

    ghost view = { λ a. a.words.shared.table_id };

    ghost invariant = { IsPad };
}

impl Pad {
    /// A new one. It has one word of memory, which no slip reads.
    pub fn new(alloc: Global) -> Result<Pad, AllocError> {
        let (words, seat) = Table::of_words(alloc, &[0], &())?;
        Ok(Pad { words, seat })
    }
}
