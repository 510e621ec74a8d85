//! The stores of the code words that an update changes.

ghost use Rattle.std.specs.Prelude.{◌≡◌, ◌+◌, ◌<◌, true, length, slice_index};
ghost use Rattle.cfi_tables.specs.Keeping.{last_of};
ghost use Rattle.cfi_tables.specs.Views.{keeper_of, view_at};
ghost use Rattle.cfi_tables.specs.inner.Stores.{IsAt, HasStoredBelow, keeping_at};

use crate::blank::Place;
use crate::rule::{Look, Store, TableName};
use crate::tables::Tables;

/// Stores each word of the last entry's code that differs from the one before; it looks at none where all are the same.
pub fn put_code<N: TableName>(tables: &Tables<N>, seat: &mut Place, code: &[u32], is_same: bool)
    requires code { code.now ≡ (last_of (keeping_at seat.old.me).entries).image.code }
    requires many { length code.now ≡ N.key.code_words }
    requires seat { IsAt N.table seat.old.table_id seat.old.id seat.old.me
        (view_at (keeping_at seat.old.me) 0) }
    requires same { is_same ≡ true →
        HasStoredBelow N.key (view_at (keeping_at seat.old.me) 0) N.key.code_words }
    ensures seat { IsAt N.table seat.new.table_id seat.new.id seat.new.me
        (keeper_of seat.new.me.0) }
    ensures reaches { HasStoredBelow N.key (keeper_of seat.new.me.0) N.key.code_words }
    ensures same { keeping_at seat.new.me ≡ keeping_at seat.old.me }
{
    if is_same {
        return;
    }
    for index in 0..code.len() {
        put_word(tables, seat, index as u32, code[index]);
    }
}

// Stores the code word of this number where it differs.
fn put_word<N: TableName>(tables: &Tables<N>, seat: &mut Place, index: u32, word: u32)
    requires index { index < N.key.code_words }
    requires word { let entry = last_of (keeping_at seat.old.me).entries in
        word ≡ slice_index entry.image.code index }
    requires seat { IsAt N.table seat.old.table_id seat.old.id seat.old.me
        (keeper_of seat.old.me.0) }
    requires reaches { HasStoredBelow N.key (keeper_of seat.old.me.0) index }
    ensures seat { IsAt N.table seat.new.table_id seat.new.id seat.new.me
        (keeper_of seat.new.me.0) }
    ensures reaches { HasStoredBelow N.key (keeper_of seat.new.me.0) (index + 1) }
    ensures same { keeping_at seat.new.me ≡ keeping_at seat.old.me }
{
    let number = tables.layout.code(index);
    let value = u64::from(word);
    let found = tables.words.shared.load::<Look<N>>(seat, number as usize);
    if found == value {
        return;
    }
    tables
        .words
        .shared
        .store::<Store<N>>(seat, number as usize, value);
}
