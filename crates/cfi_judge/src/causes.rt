//! The cause of an open that came too many versions ahead.

ghost use Rattle.std.specs.Prelude.{◌≡◌, ◌↔◌, ◌≤◌, IsTrue, count_by};
ghost use Rattle.cfi_valid.specs.Log.{is_too_old, is_versions};

use cfi_plan::{Entry, JournalLine, Who};
use cfi_unit::Log;
use cfi_valid::VERSIONS_SPENT;

// An entry of the journal tells that a load in the guest's name came too many versions ahead.
fn is_versions(guest: u32, number: u32, entry: &Entry) -> bool
    ensures { result ≡ is_versions guest number entry.now }
{
    let Who::Guest(asking) = entry.who else {
        return false;
    };
    match entry.what {
        JournalLine::LoadVersions { module, .. } => asking == guest && module == number,
        JournalLine::LoadOk { .. } => false,
        JournalLine::LoadAgain { .. } => false,
        JournalLine::LoadFull { .. } => false,
        JournalLine::LoadPlace { .. } => false,
        JournalLine::LoadVerify { .. } => false,
        JournalLine::LoadEpochs { .. } => false,
        JournalLine::LoadRetired { .. } => false,
        JournalLine::RefreshOk { .. } => false,
        JournalLine::RefreshVersions { .. } => false,
        JournalLine::RefreshEpochs => false,
        JournalLine::RetireOk { .. } => false,
        JournalLine::RetireNotLive { .. } => false,
        JournalLine::RetireInUse { .. } => false,
        JournalLine::RetireVersions { .. } => false,
        JournalLine::RetireEpochs { .. } => false,
    }
}

// How many do.
fn count_told(guest: u32, number: u32, journal: &[Entry]) -> usize
    ensures { result ≡ count_by (is_versions guest number) journal.now }
{
    let mut count = 0;
    for entry in journal {
        if is_versions(guest, number, entry) {
            count += 1;
        }
    }
    count
}

// An entry of a log tells so of an open of the module.
fn is_too_old(number: u32, entry: &Log) -> bool
    ensures { result ≡ is_too_old number entry.now }
{
    match entry {
        Log::Pick { .. } => false,
        Log::Open { .. } => false,
        Log::Cause { module, cause } => *module == number && *cause == VERSIONS_SPENT,
    }
}

// How many do.
fn count_logged(number: u32, log: &[Log]) -> usize
    ensures { result ≡ count_by (is_too_old number) log.now }
{
    let mut count = 0;
    for entry in log {
        if is_too_old(number, entry) {
            count += 1;
        }
    }
    count
}

/// Whether the journal has as many lines of the guest's loads of a module that came too many versions ahead as its log
/// has such opens of it.
pub(crate) fn versions_are_told(guest: u32, number: u32, log: &[Log], journal: &[Entry]) -> bool
    ensures { IsTrue result ↔ (count_by (is_too_old number) log.now
        ≤ count_by (is_versions guest number) journal.now) }
{
    count_logged(number, log) <= count_told(guest, number, journal)
}
