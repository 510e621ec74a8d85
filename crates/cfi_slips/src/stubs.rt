//! The stubs, by which slips are issued, told on and taken back.

ghost use Rattle.std.specs.Prelude.{◌≡◌, ◌<◌, false};
ghost use Rattle.cfi_word.specs.declared.limits.TheConstants.{GUESTS};
ghost use Rattle.cfi_slips.specs.Lines.{AreOf, lines_of};
ghost use Rattle.cfi_slips.specs.Stubs.{idle_view, is_out, issued, opened_sheet, slip_by, slip_of, stubs_of};
ghost use Rattle.cfi_slips.specs.Stubs.{taken, with_lines, with_told};
ghost use Rattle.cfi_slips.specs.inner.Seats.{IsAt, IsSlip, sheet_at};
ghost use Rattle.cfi_slips.specs.inner.Steps.{telling};

use crate::pad::{Pad, Place, Words};
use crate::rule::{Issue, Leave, SlipsName, Take, Tell, Tells, Vacate};
use crate::slip::Slip;
use cfi_plan::Entry;
use std::marker::{Brand, Model, PhantomData};
use std::mem;

/// What stays of the slips of a name: what was told on each, and which are out.
#[derive(Drop)]
pub struct Stubs<N: SlipsName> {
    words: Words,
    seat: Place,
    of: PhantomData<N>,
}

// Clauses see what they say.
impl<N: SlipsName> Model for Stubs<N> {
    ghost use Rattle.cfi_slips.specs.Stubs.{Sheet};
    ghost use Rattle.cfi_slips.specs.inner.Seats.{AreStubs, sheet_at};

    ghost Value = { Sheet };

    ghost view = { λ a. sheet_at a.seat.me };

    ghost invariant = { λ a.
        AreStubs N.slips a.words.shared.table_id a.seat.table_id a.seat.id a.seat.me };
}

// Takes a slip's seat in, and tells these lines, all in its guest's name, on it and on its stubs.
fn hold<N: SlipsName, A: Tells>(
    words: &Words,
    seat: &mut Place,
    slip: Place,
    guest: u32,
    told: &[Entry],
)
    requires told { A.more ≡ told.now }
    requires of { AreOf guest told.now }
    requires seat { IsAt N.slips words.now.shared.table_id seat.old.table_id seat.old.id seat.old.me
        (idle_view (sheet_at seat.old.me)) }
    requires slip { IsSlip N.slips slip.table_id slip.me guest }
    ensures { IsAt N.slips words.now.shared.table_id seat.new.table_id seat.new.id seat.new.me
        (telling told.now (idle_view (sheet_at seat.old.me)) (slip_of slip.me.0)) }
{
    words.shared.join_seat::<Tell<A>>(seat, slip);
}

impl<N: SlipsName> Stubs<N> {
    /// The stubs under the name N, which is the pad's.
    pub fn open(pad: Pad) -> Stubs<N>
        requires { pad ≡ N.slips }
        ensures { result ≡ opened_sheet }
    {
        let Pad { words, seat } = pad;
        Stubs {
            words,
            seat,
            of: PhantomData,
        }
    }

    /// The slip of a guest, of which none is out. It says what was told in the guest's name before.
    pub fn issue(&mut self, guest: u32) -> Slip<N>
        requires within { guest < GUESTS }
        requires free { is_out self.old.out guest ≡ false }
        ensures slip { result ≡ slip_by guest self.old.told }
        ensures out { self.new ≡ issued guest self.old }
    {
        let words = &self.words;
        words
            .shared
            .store::<Issue>(&mut self.seat, 0, u64::from(guest));
        let seat = words.shared.split_seat::<Leave>(&mut self.seat);
        Slip {
            seat,
            guest,
            of: PhantomData,
        }
    }

    /// Tells lines, all in the name of the slip's guest.
    pub fn tell(&mut self, slip: &mut Slip<N>, told: &[Entry])
        requires { AreOf slip.old.guest told.now }
        ensures slip { slip.new ≡ with_lines (lines_of slip.old.guest told.now) slip.old }
        ensures told { self.new ≡ with_told told.now self.old }
    {
        let words = &self.words;
        let vacant = words.shared.split_seat::<Vacate>(&mut self.seat);
        let place = mem::replace(&mut slip.seat, vacant);
        hold::<N, Brand>(words, &mut self.seat, place, slip.guest, told);
        slip.seat = words.shared.split_seat::<Leave>(&mut self.seat);
    }

    /// Takes a slip back. It says what was told in its guest's name.
    pub fn take(&mut self, slip: Slip<N>)
        ensures says { slip.lines ≡ lines_of slip.guest self.old.told }
        ensures out { self.new ≡ taken slip.guest self.old }
    {
        let Slip { seat, guest, of: _ } = slip;
        let words = &self.words;
        hold::<N, Brand>(words, &mut self.seat, seat, guest, &[]);
        let _ = words.shared.load::<Take>(&mut self.seat, 0);
    }
}
