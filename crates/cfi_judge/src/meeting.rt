//! What a module of the plan meets behind those that are loaded, beside those of them that are live.

ghost use Rattle.std.specs.Prelude.{◌≡◌, ◌↔◌, ◌<◌, List, All, IfOk, IsTrue, length};
ghost use Rattle.cfi_judge.specs.inner.Meets.{HasLive, IsLined, Meets};
ghost use Rattle.cfi_judge.specs.inner.Rows.{IsMeeting, kind_of, meeting_of};
ghost use Rattle.cfi_ledger.specs.Roster.{loaded_in_roster};
ghost use Rattle.cfi_modules.specs.Series.{CanBeTaken};
ghost use Rattle.cfi_valid.specs.Joining.{IsFull, IsUnloaded};
ghost use Rattle.cfi_valid.specs.Loaded.{IsLoaded, LoadedModule};
ghost use Rattle.cfi_valid.specs.Retiring.{HasGone};

use cfi_aux::Module;
use cfi_ledger::{Prospect, Roster};
use cfi_modules::FaultNumbers;
use std::alloc::AllocError;

/// What a module of the plan meets behind those that are loaded, beside those of them that are live.
#[derive(Clone, Copy, Debug, PartialEq, Eq)]
pub(crate) enum Meeting {
    /// It is live.
    Again,
    /// It is loaded, and was retired.
    Gone,
    /// It is not loaded, and no further one may be.
    Full,
    /// There is room, and it is not placed, for the fault of this number.
    Unplaced(u32),
    /// It is placed, and does not verify, for the fault of this number at this place.
    Unverified { number: u32, place: u32 },
    /// It has no fault.
    Joins,
}

/// A meeting without the numbers of a fault.
#[derive(Clone, Copy, Debug, PartialEq, Eq)]
pub(crate) enum Kind {
    Again,
    Gone,
    Full,
    Unplaced,
    Unverified,
    Joins,
}

/// A meeting without the numbers of its fault.
pub(crate) fn kind_of(meeting: Meeting) -> Kind
    ensures { result ≡ kind_of meeting }
{
    match meeting {
        Meeting::Again => Kind::Again,
        Meeting::Gone => Kind::Gone,
        Meeting::Full => Kind::Full,
        Meeting::Unplaced(_) => Kind::Unplaced,
        Meeting::Unverified { .. } => Kind::Unverified,
        Meeting::Joins => Kind::Joins,
    }
}

/// Whether the module of the number is live.
pub(crate) fn is_live(roster: &Roster, number: u32) -> bool
    ensures { (live : List LoadedModule) → HasLive roster.now live →
        IsTrue result ↔ IsLoaded live number }
{
    match roster.prospect(number) {
        Prospect::Again(_) => true,
        Prospect::Retired(_) => false,
        Prospect::Full => false,
        Prospect::Open => false,
    }
}

/// Whether it is loaded, and was retired.
pub(crate) fn is_gone(roster: &Roster, number: u32) -> bool
    ensures { (live : List LoadedModule) → HasLive roster.now live →
        IsTrue result ↔ HasGone (loaded_in_roster roster.now) live number }
{
    match roster.prospect(number) {
        Prospect::Again(_) => false,
        Prospect::Retired(_) => true,
        Prospect::Full => false,
        Prospect::Open => false,
    }
}

/// Whether a module of the plan is not loaded, and no further one may be.
pub(crate) fn is_full(roster: &Roster, modules: &[Module], number: u32) -> bool
    requires { IsLined roster.now }
    ensures { IsTrue result ↔ IsFull modules.now (loaded_in_roster roster.now) number }
{
    if number as usize >= modules.len() {
        return false;
    }
    match roster.prospect(number) {
        Prospect::Again(_) => false,
        Prospect::Retired(_) => false,
        Prospect::Full => true,
        Prospect::Open => false,
    }
}

/// Whether a module of the plan is not loaded, and there is room.
pub(crate) fn is_unloaded(roster: &Roster, modules: &[Module], number: u32) -> bool
    requires { IsLined roster.now }
    ensures { IsTrue result ↔ IsUnloaded modules.now (loaded_in_roster roster.now) number }
{
    if number as usize >= modules.len() {
        return false;
    }
    match roster.prospect(number) {
        Prospect::Again(_) => false,
        Prospect::Retired(_) => false,
        Prospect::Full => false,
        Prospect::Open => true,
    }
}

// What a module meets: the numbers of its fault, none where it joins the others.
fn meets(roster: &mut Roster, unplaced: &Module) -> Result<Option<FaultNumbers>, AllocError>
    requires { CanBeTaken unplaced.now }
    ensures ok { IfOk result (Meets roster.old unplaced.now) }
    ensures same { roster.new ≡ roster.old }
{
    match roster.joins(unplaced) {
        Ok(()) => Ok(None),
        Err(fault) => match fault.numbers() {
            Some(numbers) => Ok(Some(numbers)),
            None => Err(AllocError),
        },
    }
}

// The meeting of a module that is not loaded, where there is room.
fn meeting_of(told: Option<FaultNumbers>) -> Meeting
    ensures { result ≡ meeting_of told }
{
    match told {
        Some(FaultNumbers::Place { number }) => Meeting::Unplaced(number),
        Some(FaultNumbers::Verify { number, place }) => Meeting::Unverified { number, place },
        None => Meeting::Joins,
    }
}

/// What the module of the plan of a number meets.
pub(crate) fn met(
    roster: &mut Roster,
    modules: &[Module],
    number: u32,
) -> Result<Meeting, AllocError>
    requires taken { All CanBeTaken modules.now }
    requires known { number < length modules.now }
    ensures ok { (live : List LoadedModule) → HasLive roster.old live →
        IfOk result (IsMeeting roster.old.code_words modules.now
        (loaded_in_roster roster.old) live number) }
    ensures same { roster.new ≡ roster.old }
{
    match roster.prospect(number) {
        Prospect::Again(_) => Ok(Meeting::Again),
        Prospect::Retired(_) => Ok(Meeting::Gone),
        Prospect::Full => Ok(Meeting::Full),
        Prospect::Open => {
            let told = meets(roster, &modules[number as usize])?;
            Ok(meeting_of(told))
        }
    }
}
