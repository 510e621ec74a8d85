//! The keeper, which updates the tables, and admits passes and takes them back.

ghost use Rattle.std.specs.Prelude.{◌≡◌, ◌+◌, ◌-◌, ◌≤◌, length, slice_index, IfOk, IfErr, IfSome, IfNone, OnOk, OnErr, Err};
ghost use Rattle.cfi_word.specs.declared.limits.TheConstants.{MAX_EPOCH};
ghost use Rattle.cfi_model.specs.Tables.{IsTables, IsUpdate};
ghost use Rattle.cfi_tables.specs.Faults.{AllAdmit, AreLater, FaultIs, epoch_after};
ghost use Rattle.cfi_tables.specs.Keeping.{AreAllOut, IsFree, entry_by, grown_by, heard_of, last_of, let_in, let_out, opened_keeping};
ghost use Rattle.cfi_tables.specs.Rule.{AgreesWith};
ghost use Rattle.cfi_tables.specs.Views.{admitted, noted, tables_with};
ghost use Rattle.cfi_tables.specs.declared.fault.AdmitFault.TheVariants.{NoSeat};
ghost use Rattle.cfi_tables.specs.declared.fault.UpdateFault.TheVariants.{EpochsSpent};

use crate::admission::{Asked, test_all};
use crate::blank::{Blank, Place};
use crate::code::put_code;
use crate::fault::{AdmitFault, UpdateFault};
use crate::holding::{clear, register, tell};
use crate::rule::TableName;
use crate::stamp::Stamp;
use crate::stores::store_all;
use crate::tables::{Pass, Tables};
use cfi_word::limits::{GUESTS, MAX_EPOCH};
use cfi_word::{Image, Layout};
use std::marker::{Brand, Model, PhantomData};

/// The one that updates the tables.
#[derive(Drop)]
pub struct Keeper<N: TableName> {
    seat: Place,
    layout: Layout,
    versions: u32,
    epoch: u32,
    policy: u32,
    // For each guest number, whether its pass is out.
    out: [bool; GUESTS as usize],
    of: PhantomData<N>,
}

// Clauses see what it keeps.
impl<N: TableName> Model for Keeper<N> {
    ghost use Rattle.cfi_tables.specs.Keeping.{Keeping};
    ghost use Rattle.cfi_tables.specs.inner.Keepers.{IsKeeper};
    ghost use Rattle.cfi_tables.specs.inner.Stores.{keeping_at};

    ghost Value = { Keeping };

    ghost view = { λ keeper. keeping_at keeper.seat.me };

    ghost invariant = { λ keeper. let seat = keeper.seat in
        IsKeeper N.table N.key seat.table_id seat.id seat.me (record {
          layout = keeper.layout;
          versions = keeper.versions;
          epoch = keeper.epoch;
          policy = keeper.policy;
          out = keeper.out;
        }) };
}

impl<N: TableName> Tables<N> {
    /// The tables and their keeper under the name N, which is the blank's.
    pub fn open(blank: Blank) -> (Tables<N>, Keeper<N>)
        requires table { blank.table ≡ N.table }
        requires key { blank.key ≡ N.key }
        ensures { result.1 ≡ opened_keeping N.key }
    {
        let Blank {
            words,
            seat,
            layout,
            versions,
            first,
        } = blank;
        let tables = Tables {
            words,
            layout,
            of: PhantomData,
        };
        let keeper = Keeper {
            seat,
            layout,
            versions,
            epoch: first,
            policy: 0,
            out: [false; GUESTS as usize],
            of: PhantomData,
        };
        (tables, keeper)
    }
}

// The least guest number whose pass is not out.
fn free_guest(out: &[bool; GUESTS as usize]) -> Option<u32>
    ensures some { IfSome result (IsFree out.now) }
    ensures none { IfNone result (AreAllOut out.now) }
{
    for guest in 0..GUESTS {
        if !out[guest as usize] {
            return Some(guest);
        }
    }
    None
}

/// What is in force.
#[derive(Clone, Copy, Debug, PartialEq, Eq)]
pub struct Seen {
    /// The epoch.
    pub epoch: u32,
    /// The policy number.
    pub policy: u32,
}

impl<N: TableName> Keeper<N> {
    /// The pass of the guest of the least number whose pass is not out. It has seen what the keeper has seen, and its
    /// guest's QUIET word tells the epoch in force.
    pub fn admit(&mut self, tables: &Tables<N>) -> Result<Pass<N>, AdmitFault>
        ensures ok { IfOk result (λ pass. pass ≡ admitted N.key self.old pass.guest) }
        ensures free { IfOk result (λ pass. IsFree self.old.out pass.guest) }
        ensures out { IfOk result (λ pass. self.new ≡ let_out N.key pass.guest self.old) }
        ensures tables { IsTables (tables_with N.key self.old.entries) }
        ensures fault { IfErr result (λ fault. AreAllOut self.old.out) }
        ensures all { AreAllOut self.old.out → result ≡ Err NoSeat }
        ensures same { OnErr result (self.new ≡ self.old) }
    {
        let Some(guest) = free_guest(&self.out) else {
            return Err(AdmitFault::NoSeat);
        };
        let pass = register(tables, &mut self.seat, guest, self.epoch + 1);
        self.out[guest as usize] = true;
        Ok(pass)
    }

    /// Puts an image in force, with its policy, and answers the new epoch. The mark goes into the history, or with an
    /// update that is not admitted into the refusals. It is admitted exactly where the QUIET word of each guest admits
    /// it, as this call loads them from the least guest on; that of a guest that is parked does. `later`: no guest has
    /// published less than an update has found before, nor than it had when the keeper last let out its pass or told
    /// it.
    ///
    /// The policy is the one in force, with the image in force, or the next one, with an image that keeps the code.
    pub fn update(
        &mut self,
        tables: &Tables<N>,
        image: &Image,
        policy: u32,
        mark: u32,
    ) -> Result<u32, UpdateFault>
        requires follows { IsUpdate N.key.code_words (last_of self.old.entries)
            (entry_by policy image.now mark) }
        ensures ok { IfOk result (λ epoch. epoch ≡ epoch_after N.key self.old) }
        ensures new { OnOk result (self.new
            ≡ grown_by (entry_by policy image.now mark) self.new.quiets self.old) }
        ensures admitted { OnOk result (AllAdmit N.key self.old self.new.quiets) }
        ensures fault { IfErr result (FaultIs N.key mark self.old self.new) }
        ensures later { AreLater self.old.quiets self.new.quiets }
        ensures spent { epoch_after N.key self.old ≡ MAX_EPOCH + 1 → result ≡ Err EpochsSpent }
    {
        if self.epoch == MAX_EPOCH {
            return Err(UpdateFault::EpochsSpent);
        }
        let epoch = self.epoch + 1;
        let asked = Asked {
            policy,
            image,
            mark,
        };
        let spent = test_all::<N, Brand>(tables, &mut self.seat, epoch, self.versions, &asked);
        if let Some((guest, quiet)) = spent {
            return Err(UpdateFault::VersionsSpent { guest, quiet });
        }
        let stamp = Stamp::new(epoch, policy, self.versions);
        let is_same = policy == self.policy;
        put_code(tables, &mut self.seat, image.code.as_slice(), is_same);
        store_all(tables, &mut self.seat, &stamp, image);
        self.epoch = epoch;
        self.policy = policy;
        Ok(epoch)
    }

    /// Tells a pass all that the keeper has seen. Its accesses stay. No update has found more of its guest than this has
    /// published, and none will find less.
    pub fn note(&mut self, tables: &Tables<N>, pass: &mut Pass<N>)
        ensures pass { pass.new ≡ noted N.key self.old pass.old }
        ensures agrees { AgreesWith N.key self.old.entries self.old.refusals pass.old.sight }
        ensures heard { slice_index self.old.quiets.heard pass.old.guest ≤ pass.old.quiet + 1 }
        ensures tables { IsTables (tables_with N.key self.old.entries) }
        ensures kept { self.new ≡ heard_of pass.old.guest pass.old.quiet self.old }
    {
        tell(tables, &mut self.seat, pass);
    }

    /// Takes a pass back, whose guest is registered no more, and answers what is in force. What the pass has seen is
    /// part of the history, and what it has loaded are words of it.
    pub fn release(&mut self, tables: &Tables<N>, pass: Pass<N>) -> Seen
        ensures agrees { AgreesWith N.key self.old.entries self.old.refusals pass.sight }
        ensures heard { slice_index self.old.quiets.heard pass.guest ≤ pass.quiet + 1 }
        ensures out { self.new ≡ let_in pass.guest self.old }
        ensures epoch { result.epoch + 1 ≡ epoch_after N.key self.old }
        ensures policy { result.policy ≡ (last_of self.old.entries).policy }
    {
        let guest = pass.guest();
        clear(tables, &mut self.seat, pass);
        self.out[guest as usize] = false;
        Seen {
            epoch: self.epoch,
            policy: self.policy,
        }
    }
}
