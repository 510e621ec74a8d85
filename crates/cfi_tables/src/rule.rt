//! The rule of the tables, their names, and the kinds of step.

use crate::view::{Told, View};
use atomic_table::{Join, Play, Split, TableRule};
use std::marker::{Brand, PhantomData};

/// Names one table: values with one name belong together. Each call of a function over names picks one.
pub trait TableName {
    ghost use Rattle.atomic_table.specs.Seated.{TableId};
    ghost use Rattle.cfi_tables.specs.Key.{Key};

    ghost table: { TableId };

    ghost key: { Key };
}

impl TableName for Brand {
    ghost use Rattle.cfi_tables.specs.Key.{no_table, no_key};

    ghost table = { no_table };

    ghost key = { no_key };
}

/// The entry that an update adds. Each update picks its own.
pub trait Asks {
    ghost use Rattle.cfi_model.specs.declared.history.Entry.{Entry};

    ghost entry: { Entry };
}

impl Asks for Brand {
    ghost use Rattle.cfi_model.specs.Words.{no_entry};

    ghost entry = { no_entry };
}

/// The words show the tables of the keeper's view, and what each seat knows is true.
pub struct Law;

impl TableRule<(), View, Told> for Law {
    ghost use Rattle.cfi_tables.specs.Key.{key_of};
    ghost use Rattle.cfi_tables.specs.Rule.{KeepsRule};
    ghost use Rattle.cfi_tables.specs.Views.{opened_view};

    ghost holds = { λ told. KeepsRule (key_of told) };

    ghost first = { λ told. opened_view (key_of told) };
}

// A test of a QUIET word.
pub(crate) struct Test<N, A> {
    of: PhantomData<(N, A)>,
}

impl<N: TableName, A: Asks> Play<(), View> for Test<N, A> {
    ghost use Rattle.cfi_tables.specs.inner.Steps.{Tests};

    ghost then = { Tests N.key A.entry };
}

// A store of an update.
pub(crate) struct Store<N> {
    of: PhantomData<N>,
}

impl<N: TableName> Play<(), View> for Store<N> {
    ghost use Rattle.cfi_tables.specs.inner.Steps.{Stores};

    ghost then = { Stores N.key };
}

// A guest's load of a word that tells an epoch.
pub(crate) struct Load<N> {
    of: PhantomData<N>,
}

impl<N: TableName> Play<(), View> for Load<N> {
    ghost use Rattle.cfi_tables.specs.inner.Steps.{Loads};

    ghost then = { Loads N.key };
}

// A guest's fetch of a code word.
pub(crate) struct Fetch<N> {
    of: PhantomData<N>,
}

impl<N: TableName> Play<(), View> for Fetch<N> {
    ghost use Rattle.cfi_tables.specs.inner.Steps.{Fetches};

    ghost then = { Fetches N.key };
}

// The keeper's load of a code word.
pub(crate) struct Look<N> {
    of: PhantomData<N>,
}

impl<N: TableName> Play<(), View> for Look<N> {
    ghost use Rattle.cfi_tables.specs.inner.Steps.{Looks};

    ghost then = { Looks N.key };
}

// A guest's store of the parked number in its QUIET word.
pub(crate) struct Park;

impl Play<(), View> for Park {
    ghost use Rattle.cfi_tables.specs.inner.Steps.{Parks};

    ghost then = { Parks };
}

// A guest's store of an epoch in its QUIET word.
pub(crate) struct Publish;

impl Play<(), View> for Publish {
    ghost use Rattle.cfi_tables.specs.inner.Steps.{Publishes};

    ghost then = { Publishes };
}

// The store by which a guest is registered.
pub(crate) struct Register<N> {
    of: PhantomData<N>,
}

impl<N: TableName> Play<(), View> for Register<N> {
    ghost use Rattle.cfi_tables.specs.inner.Steps.{Registers};

    ghost then = { Registers N.key };
}

// The load of EPOCH by which a pass is told what the keeper has seen.
pub(crate) struct Tell<N> {
    of: PhantomData<N>,
}

impl<N: TableName> Play<(), View> for Tell<N> {
    ghost use Rattle.cfi_tables.specs.inner.Steps.{Tells};

    ghost then = { Tells N.key };
}

// The store by which a guest is registered no more.
pub(crate) struct Clear<N> {
    of: PhantomData<N>,
}

impl<N: TableName> Play<(), View> for Clear<N> {
    ghost use Rattle.cfi_tables.specs.inner.Steps.{Clears};

    ghost then = { Clears N.key };
}

// The pass that the keeper holds gets a seat.
pub(crate) struct Leave;

impl Split<View> for Leave {
    ghost use Rattle.cfi_tables.specs.inner.Steps.{left_view, seat_view};

    ghost left = { left_view };

    ghost right = { seat_view };
}

// A seat for no one.
pub(crate) struct Vacate;

impl Split<View> for Vacate {
    ghost use Rattle.cfi_tables.specs.declared.view.View.TheVariants.{Spent};

    ghost left = { λ view. view };

    ghost right = { λ view. Spent };
}

// A pass gives up its seat, and the keeper holds it.
pub(crate) struct Return;

impl Join<View> for Return {
    ghost use Rattle.cfi_tables.specs.declared.view.View.TheVariants.{Spent};
    ghost use Rattle.cfi_tables.specs.inner.Steps.{returned_view};

    ghost both = { returned_view };

    ghost spent = { Spent };
}
