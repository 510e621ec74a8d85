use cfi_values::{Items, Text};

/// A module of a plan.
#[derive(Debug, PartialEq, Eq, Drop)]
pub struct PlanModule {
    /// Its name, by which the script loads and retires it.
    pub name: Text,
    /// The file that has it.
    pub file: Text,
    /// Whether it is loaded before the guests start.
    pub start: bool,
}

/// A line of a plan's script.
#[derive(Clone, Copy, Debug, PartialEq, Eq)]
pub enum ScriptLine {
    /// Load the module of this number.
    Load(u32),
    /// Retire the module of this number.
    Retire(u32),
    /// Make this many refreshes.
    Refresh(u32),
}

/// What a run is to do.
#[derive(Debug, PartialEq, Eq, Drop)]
pub struct Plan {
    /// The number of code words.
    pub code_words: u32,
    /// The number of versions.
    pub versions: u32,
    /// The first epoch.
    pub first: u32,
    /// How many steps a guest may make.
    pub fuel: u32,
    /// The modules, by number.
    pub modules: Items<PlanModule>,
    /// The entry of each guest, by number.
    pub guests: Items<Text>,
    /// The script's lines, in order.
    pub script: Items<ScriptLine>,
}
