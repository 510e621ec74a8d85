//! The stores of an update, in their order: the Tary words, EPOCH, the Bary words.

ghost use Rattle.std.specs.Prelude.{◌≡◌, ◌+◌, ◌*◌};
ghost use Rattle.cfi_word.specs.Rank.{stores_of};
ghost use Rattle.cfi_model.specs.Closed.{HasClasses};
ghost use Rattle.cfi_tables.specs.Keeping.{last_of};
ghost use Rattle.cfi_tables.specs.Views.{idle_view, keeper_of};
ghost use Rattle.cfi_tables.specs.inner.Stores.{IsAt, HasStoredBelow, keeping_at, stamp_of};

use crate::blank::Place;
use crate::rule::{Store, TableName};
use crate::stamp::Stamp;
use crate::tables::Tables;
use cfi_word::{EPOCH, Image};

/// All stores of the update to the last entry, whose image this is, once its code is stored.
pub fn store_all<N: TableName>(tables: &Tables<N>, seat: &mut Place, stamp: &Stamp, image: &Image)
    requires stamp { stamp.now ≡ stamp_of N.key (keeping_at seat.old.me).entries }
    requires image { image.now ≡ (last_of (keeping_at seat.old.me).entries).image }
    requires fit { HasClasses N.key.code_words image.now }
    requires seat { IsAt N.table seat.old.table_id seat.old.id seat.old.me
        (keeper_of seat.old.me.0) }
    requires reaches { HasStoredBelow N.key (keeper_of seat.old.me.0) N.key.code_words }
    ensures { IsAt N.table seat.new.table_id seat.new.id seat.new.me
        (idle_view N.key (keeping_at seat.old.me)) }
{
    store_tary(tables, seat, stamp, image.tary.as_slice());
    store_epoch(tables, seat, stamp);
    store_bary(tables, seat, stamp, image.bary.as_slice());
}

// The Tary words, one for each class.
fn store_tary<N: TableName>(tables: &Tables<N>, seat: &mut Place, stamp: &Stamp, classes: &[u32])
    requires stamp { stamp.now ≡ stamp_of N.key (keeping_at seat.old.me).entries }
    requires classes { classes.now ≡ (last_of (keeping_at seat.old.me).entries).image.tary }
    requires fit { HasClasses N.key.code_words (last_of (keeping_at seat.old.me).entries).image }
    requires seat { IsAt N.table seat.old.table_id seat.old.id seat.old.me
        (keeper_of seat.old.me.0) }
    requires reaches { HasStoredBelow N.key (keeper_of seat.old.me.0) N.key.code_words }
    ensures seat { IsAt N.table seat.new.table_id seat.new.id seat.new.me
        (keeper_of seat.new.me.0) }
    ensures reaches { HasStoredBelow N.key (keeper_of seat.new.me.0) (2 * N.key.code_words) }
    ensures same { keeping_at seat.new.me ≡ keeping_at seat.old.me }
{
    for index in 0..classes.len() {
        let number = tables.layout.tary(index as u32);
        let value = stamp.word(classes[index]);
        tables
            .words
            .shared
            .store::<Store<N>>(seat, number as usize, value);
    }
}

// EPOCH, by which the policy of the last entry is in force.
fn store_epoch<N: TableName>(tables: &Tables<N>, seat: &mut Place, stamp: &Stamp)
    requires stamp { stamp.now ≡ stamp_of N.key (keeping_at seat.old.me).entries }
    requires seat { IsAt N.table seat.old.table_id seat.old.id seat.old.me
        (keeper_of seat.old.me.0) }
    requires reaches { HasStoredBelow N.key (keeper_of seat.old.me.0) (2 * N.key.code_words) }
    ensures seat { IsAt N.table seat.new.table_id seat.new.id seat.new.me
        (keeper_of seat.new.me.0) }
    ensures reaches { HasStoredBelow N.key (keeper_of seat.new.me.0) (2 * N.key.code_words + 1) }
    ensures stored { (keeper_of seat.new.me.0).stored ≡ 2 * N.key.code_words + 1 }
    ensures same { keeping_at seat.new.me ≡ keeping_at seat.old.me }
{
    let value = stamp.word(0);
    tables
        .words
        .shared
        .store::<Store<N>>(seat, EPOCH as usize, value);
}

// The Bary words, one for each class.
fn store_bary<N: TableName>(tables: &Tables<N>, seat: &mut Place, stamp: &Stamp, classes: &[u32])
    requires stamp { stamp.now ≡ stamp_of N.key (keeping_at seat.old.me).entries }
    requires classes { classes.now ≡ (last_of (keeping_at seat.old.me).entries).image.bary }
    requires fit { HasClasses N.key.code_words (last_of (keeping_at seat.old.me).entries).image }
    requires seat { IsAt N.table seat.old.table_id seat.old.id seat.old.me
        (keeper_of seat.old.me.0) }
    requires reaches { HasStoredBelow N.key (keeper_of seat.old.me.0) (2 * N.key.code_words + 1) }
    requires stored { (keeper_of seat.old.me.0).stored ≡ 2 * N.key.code_words + 1 }
    ensures seat { IsAt N.table seat.new.table_id seat.new.id seat.new.me
        (keeper_of seat.new.me.0) }
    ensures reaches { HasStoredBelow N.key (keeper_of seat.new.me.0) (stores_of N.key.code_words) }
    ensures stored { (keeper_of seat.new.me.0).stored ≡ stores_of N.key.code_words }
    ensures same { keeping_at seat.new.me ≡ keeping_at seat.old.me }
{
    for slot in 0..classes.len() {
        let number = tables.layout.bary(slot as u32);
        let value = stamp.word(classes[slot]);
        tables
            .words
            .shared
            .store::<Store<N>>(seat, number as usize, value);
    }
}
