use cfi_plan::{Entry, ModuleLine};
use cfi_unit::{Log, Stop};
use cfi_values::{Bytes, Text};

/// A line of a report.
#[derive(Drop)]
pub enum Line {
    /// The first line.
    Title,
    /// The last epoch and the last policy.
    Force(u32, u32),
    /// A loaded module.
    Module(ModuleLine),
    /// A line of the journal.
    Journal(Entry),
    /// A guest's number and its entry.
    Guest(u32, Text),
    /// An entry of the guest's log.
    Log(Log),
    /// What the guest put.
    Out(Bytes),
    /// Why the guest stopped, if it has.
    Stop(Option<Stop>),
    /// How many units the guest ended.
    Units(u32),
    /// How many instructions the guest ran.
    Steps(u32),
    /// The last line.
    End,
}
