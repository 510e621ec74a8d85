//! The rule of slips and stubs, their name, and the kinds of step.

use crate::view::View;
use atomic_table::{Join, Play, Split, TableRule};
use std::marker::{Brand, PhantomData};

/// Names some stubs: they belong to the slips of their name.
pub trait SlipsName {
    ghost use Rattle.atomic_table.specs.Seated.{TableId};

    ghost slips: { TableId };
}

impl SlipsName for Brand {
    ghost use Rattle.cfi_slips.specs.Stubs.{no_slips};

    ghost slips = { no_slips };
}

/// The lines that are told by a slip. Each telling picks its own.
pub trait Tells {
    ghost use Rattle.std.specs.Prelude.{List};
    ghost use Rattle.cfi_plan.specs.declared.journal.Entry.{Entry};

    ghost more: { List Entry };
}

impl Tells for Brand {
    ghost use Rattle.std.specs.Prelude.{[]};

    ghost more = { [] };
}

/// Each slip says what its stubs have told in its guest's name.
pub struct Law;

impl TableRule<(), View, ()> for Law {
    ghost use Rattle.cfi_slips.specs.Rule.{KeepsSlips};
    ghost use Rattle.cfi_slips.specs.Stubs.{opened_view};

    ghost holds = { λ told s. KeepsSlips s.views };

    ghost first = { λ told. opened_view };
}

// A slip goes out.
pub(crate) struct Issue;

impl Play<(), View> for Issue {
    ghost use Rattle.cfi_slips.specs.inner.Steps.{Issues};

    ghost then = { Issues };
}

// The slip that the stubs hold is out no more.
pub(crate) struct Take;

impl Play<(), View> for Take {
    ghost use Rattle.cfi_slips.specs.inner.Steps.{Takes};

    ghost then = { Takes };
}

// The slip that the stubs hold gets a seat.
pub(crate) struct Leave;

impl Split<View> for Leave {
    ghost use Rattle.cfi_slips.specs.inner.Steps.{left_view, seat_view};

    ghost left = { left_view };

    ghost right = { seat_view };
}

// A seat for no one.
pub(crate) struct Vacate;

impl Split<View> for Vacate {
    ghost use Rattle.cfi_slips.specs.declared.view.View.TheVariants.{Spent};

    ghost left = { λ view. view };

    ghost right = { λ view. Spent };
}

// A slip gives up its seat, and the lines are told on it and on its stubs, which hold it.
pub(crate) struct Tell<A> {
    of: PhantomData<A>,
}

impl<A: Tells> Join<View> for Tell<A> {
    ghost use Rattle.cfi_slips.specs.declared.view.View.TheVariants.{Spent};
    ghost use Rattle.cfi_slips.specs.inner.Steps.{told_view};

    ghost both = { told_view A.more };

    ghost spent = { Spent };
}
