use cfi_plan::{Entry, ModuleLine};
use cfi_unit::{Log, Stop};
use cfi_values::{Bytes, Items, Text};

/// What a run has come to.
#[derive(Debug, Drop)]
pub struct Report {
    /// The last epoch.
    pub epoch: u32,
    /// The last policy.
    pub policy: u32,
    /// The loaded modules, in load order.
    pub modules: Items<ModuleLine>,
    /// The journal, in the order of the calls.
    pub journal: Items<Entry>,
    /// The guests, by number.
    pub guests: Items<GuestPart>,
}

/// What a guest has come to.
#[derive(Debug, Drop)]
pub struct GuestPart {
    /// The guest's number in the plan.
    pub number: u32,
    /// The name of its entry.
    pub entry: Text,
    /// What it logged, in order.
    pub log: Items<Log>,
    /// The bytes that it put.
    pub out: Bytes,
    /// Why it stopped. `None` where it has not.
    pub stop: Option<Stop>,
    /// How many units it ended, with the one that stopped it.
    pub units: u32,
    /// How many instructions it ran.
    pub steps: u32,
}
