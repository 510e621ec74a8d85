//! Faults of joining and of updates, as a load answers and tells them.

ghost use Rattle.std.specs.Prelude.{◌≡◌};
ghost use Rattle.cfi_loader.specs.inner.Loads.{load_fault_of, load_fault_by, update_line};

use crate::fault::LoadFault;
use cfi_modules::JoinFault;
use cfi_plan::JournalLine;
use cfi_tables::UpdateFault;

/// The fault of joining as one of loading.
pub(crate) fn load_fault_of(fault: JoinFault) -> LoadFault
    ensures { result ≡ load_fault_of fault }
{
    match fault {
        JoinFault::Place(fault) => LoadFault::Place(fault),
        JoinFault::Verify(fault) => LoadFault::Verify(fault),
        JoinFault::Memory => LoadFault::Memory,
    }
}

/// The fault of an update as one of loading.
pub(crate) fn load_fault_by(fault: UpdateFault) -> LoadFault
    ensures { result ≡ load_fault_by fault }
{
    match fault {
        UpdateFault::EpochsSpent => LoadFault::EpochsSpent,
        UpdateFault::VersionsSpent { guest, quiet } => LoadFault::VersionsSpent { guest, quiet },
    }
}

/// The line that tells of it.
pub(crate) fn update_line(number: u32, fault: UpdateFault) -> JournalLine
    ensures { result ≡ update_line number fault }
{
    match fault {
        UpdateFault::EpochsSpent => JournalLine::LoadEpochs { module: number },
        UpdateFault::VersionsSpent { guest, quiet } => JournalLine::LoadVersions {
            module: number,
            guest,
            quiet,
        },
    }
}
