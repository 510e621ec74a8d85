//! The test of the QUIET words, by which an update is admitted.

ghost use Rattle.std.specs.Prelude.{◌≡◌, ◌≤◌, IfSome, IfNone};
ghost use Rattle.cfi_model.specs.Quiet.{admits, quiet_in};
ghost use Rattle.cfi_word.specs.declared.limits.TheConstants.{MIN_VERSIONS, MAX_VERSIONS, MAX_EPOCH};
ghost use Rattle.cfi_tables.specs.Faults.{AllAdmit, AreLater, IsFarBehind, IsFirstBehind, epoch_after};
ghost use Rattle.cfi_tables.specs.Keeping.{entry_by, grown_by, refused_by};
ghost use Rattle.cfi_tables.specs.Views.{idle_view, view_at};
ghost use Rattle.cfi_tables.specs.inner.Stores.{IsAt, CanAsk, keeping_at};

use crate::blank::Place;
use crate::rule::{Asks, TableName, Test};
use crate::tables::Tables;
use cfi_model::PARKED;
use cfi_word::Image;
use cfi_word::limits::GUESTS;

/// What an update asks for.
#[derive(Drop)]
pub struct Asked<'a> {
    /// The policy number.
    pub policy: u32,
    /// The classes and the code.
    pub image: &'a Image,
    /// A number that goes into the history.
    pub mark: u32,
}

/// The least guest whose QUIET word does not admit the update to the entry that A names, and the epoch that it tells.
pub fn test_all<N: TableName, A: Asks>(
    tables: &Tables<N>,
    seat: &mut Place,
    epoch: u32,
    versions: u32,
    asked: &Asked,
) -> Option<(u32, u32)>
    requires asked { A.entry ≡ entry_by asked.now.policy asked.now.image.now asked.now.mark }
    requires ready { CanAsk N.key (keeping_at seat.old.me) A.entry }
    requires epoch { epoch ≡ epoch_after N.key (keeping_at seat.old.me) }
    requires versions { versions ≡ N.key.versions }
    requires seat { IsAt N.table seat.old.table_id seat.old.id seat.old.me
        (idle_view N.key (keeping_at seat.old.me)) }
    ensures passed { IfNone result (IsAt N.table seat.new.table_id seat.new.id seat.new.me
        (view_at (grown_by A.entry (keeping_at seat.new.me).quiets (keeping_at seat.old.me)) 0)) }
    ensures admitted { IfNone result
        (AllAdmit N.key (keeping_at seat.old.me) (keeping_at seat.new.me).quiets) }
    ensures refused { IfSome result (λ spent.
        IsAt N.table seat.new.table_id seat.new.id seat.new.me
        (idle_view N.key (refused_by
        (record { guest = spent.0; quiet = spent.1; epoch = epoch; mark = asked.now.mark })
        (keeping_at seat.new.me).quiets (keeping_at seat.old.me)))) }
    ensures first { IfSome result (λ spent.
        IsFirstBehind N.key (keeping_at seat.old.me) (keeping_at seat.new.me).quiets spent.0
        spent.1) }
    ensures later { AreLater (keeping_at seat.old.me).quiets (keeping_at seat.new.me).quiets }
    ensures behind { IfSome result (λ spent.
        IsFarBehind N.key (keeping_at seat.old.me) spent.0 spent.1) }
{
    for guest in 0..GUESTS {
        let number = tables.layout.quiet(guest);
        let found = tables
            .words
            .shared
            .load::<Test<N, A>>(seat, number as usize);
        if !admits(epoch, versions, found) {
            return Some((guest, (found - 1) as u32));
        }
    }
    None
}

// Whether a QUIET word admits an update to the epoch.
fn admits(epoch: u32, versions: u32, word: u64) -> bool
    requires epoch { epoch ≤ MAX_EPOCH }
    requires least { MIN_VERSIONS ≤ versions }
    requires most { versions ≤ MAX_VERSIONS }
    ensures { result ≡ admits versions epoch (quiet_in word) }
{
    if word == 0 || word == PARKED {
        return true;
    }
    u64::from((epoch + 2).saturating_sub(versions)) <= word - 1
}
