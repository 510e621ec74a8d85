//! The tables under a name, and the passes that load them.

ghost use Rattle.std.specs.Prelude.{◌≡◌, ◌<◌, false};
ghost use Rattle.cfi_word.specs.Table.{IsSize, word_count, word_number};
ghost use Rattle.cfi_tables.specs.Key.{key_of};
ghost use Rattle.cfi_tables.specs.Loads.{IsFetch, IsLoad, IsQuiet, IsTableAddress, place_at};
ghost use Rattle.cfi_tables.specs.Views.{parked};

use crate::blank::{Place, Words};
use crate::rule::{Fetch, Load, Park, Publish, TableName};
use cfi_model::PARKED;
use cfi_word::map::{BARY, TARY};
use cfi_word::{EPOCH, Layout, Word};
use std::marker::{Model, PhantomData};

/// The words of the tables, which all threads share.
#[derive(Drop)]
pub struct Tables<N: TableName> {
    pub(crate) words: Words,
    pub(crate) layout: Layout,
    pub(crate) of: PhantomData<N>,
    ghost name: { words.shared.table_id ≡ N.table },
    ghost key: { key_of words.shared.key ≡ N.key },
    ghost many: { words.shared.table_id.words ≡ word_count N.key.code_words },
    ghost layout_is: { layout ≡ N.key.code_words },
    ghost size: { IsSize N.key.code_words },
}

/// A guest's seat at the tables: all that its guest loads is loaded by it.
#[derive(Drop)]
pub struct Pass<N: TableName> {
    pub(crate) seat: Place,
    pub(crate) guest: u32,
    pub(crate) of: PhantomData<N>,
}

// Clauses see what the pass knows.
impl<N: TableName> Model for Pass<N> {
    ghost use Rattle.cfi_tables.specs.declared.view.PassView.{PassView};
    ghost use Rattle.cfi_tables.specs.inner.Seats.{IsPass};
    ghost use Rattle.cfi_tables.specs.Views.{pass_of};

    ghost Value = { PassView };

    ghost view = { λ pass. pass_of pass.seat.me.0 };

    ghost invariant = { λ pass. IsPass N.table pass.seat.table_id pass.seat.me pass.guest };
}

impl<N: TableName> Pass<N> {
    /// The guest's number, below `GUESTS`.
    pub fn guest(&self) -> u32
        ensures { result ≡ self.now.guest }
    {
        self.guest
    }
}

impl<N: TableName> Tables<N> {
    /// Loads the Bary word of a slot, for the address `BARY + 4 b`, or the Tary word of a code address, for `TARY + t`.
    ///
    /// The slot is below the layout's, the code address below `CODE_BYTES`, and both addresses are multiples of 4. Past
    /// the code the Tary word of code word 0 answers. The guest is not parked.
    #[inline(always)]
    pub fn load(&self, pass: &mut Pass<N>, address: u32) -> u64
        requires address { IsTableAddress N.key.code_words address }
        requires outside { pass.old.parked ≡ false }
        ensures { IsLoad N.key (place_at N.key.code_words address) result pass.old pass.new }
    {
        let word = word_at(&self.layout, address);
        self.words
            .shared
            .load::<Load<N>>(&mut pass.seat, word as usize)
    }

    /// Fetches the code word of this number, which is below the layout's number of code words. The guest is not
    /// parked.
    #[inline(always)]
    pub fn fetch(&self, pass: &mut Pass<N>, word: u32) -> u32
        requires word { word < N.key.code_words }
        requires outside { pass.old.parked ≡ false }
        ensures { IsFetch N.key word result pass.old pass.new }
    {
        let number = self.layout.code(word);
        let found = self
            .words
            .shared
            .load::<Fetch<N>>(&mut pass.seat, number as usize);
        found as u32
    }

    /// Parks the guest, which enters a service: stores the parked number in its QUIET word. Updates then pass it by,
    /// until its next quiescent point.
    pub fn park(&self, pass: &mut Pass<N>)
        ensures { pass.new ≡ parked pass.old }
    {
        let number = self.layout.quiet(pass.guest);
        self.words
            .shared
            .store::<Park>(&mut pass.seat, number as usize, PARKED);
    }

    /// A quiescent point: loads EPOCH, publishes the epoch found in the guest's QUIET word, and answers it. The guest
    /// is then parked no more.
    pub fn quiet(&self, pass: &mut Pass<N>) -> u32
        ensures { IsQuiet N.key result pass.old pass.new }
    {
        let found = self
            .words
            .shared
            .load::<Load<N>>(&mut pass.seat, EPOCH as usize);
        let epoch = Word::epoch_of(found);
        let number = self.layout.quiet(pass.guest);
        self.words
            .shared
            .store::<Publish>(&mut pass.seat, number as usize, u64::from(epoch) + 1);
        epoch
    }
}

// The number of the word that answers a table address.
#[inline(always)]
fn word_at(layout: &Layout, address: u32) -> u32
    requires { IsTableAddress layout.now address }
    ensures { result ≡ word_number layout.now (place_at layout.now address) }
{
    if address >= BARY {
        return layout.bary((address - BARY) / 4);
    }
    let index = (address - TARY) / 4;
    layout.tary(if index < layout.code_words() {
        index
    } else {
        0
    })
}
