use cfi_values::Text;

/// Where a loaded module lies.
#[derive(Debug, PartialEq, Eq, Drop)]
pub struct ModuleLine {
    /// The module's number in the plan.
    pub number: u32,
    /// Its name.
    pub name: Text,
    /// Its first code word.
    pub base: u32,
    /// Its first branch slot.
    pub slot: u32,
    /// The address of its data.
    pub data_base: u32,
    /// The policy that came with it.
    pub policy: u32,
}

/// Who asked for a load, a retiring or a refresh.
#[derive(Clone, Copy, Debug, PartialEq, Eq)]
pub enum Who {
    /// The plan's script.
    Script,
    /// The guest of this number.
    Guest(u32),
}

/// What came of one call.
#[derive(Clone, Copy, Debug, PartialEq, Eq)]
pub enum JournalLine {
    /// The module was loaded.
    LoadOk {
        module: u32,
        epoch: u32,
        policy: u32,
    },
    /// It was loaded already.
    LoadAgain {
        module: u32,
        policy: u32,
    },
    /// No further module may be loaded.
    LoadFull {
        module: u32,
    },
    /// It is not placed, for the fault of this number.
    LoadPlace {
        module: u32,
        number: u32,
    },
    /// It is not verified, for the fault of this number at this place.
    LoadVerify {
        module: u32,
        number: u32,
        place: u32,
    },
    /// A guest's quiet word is too old for the next version.
    LoadVersions {
        module: u32,
        guest: u32,
        quiet: u32,
    },
    /// The epochs are used up.
    LoadEpochs {
        module: u32,
    },
    /// The module was retired, and is not loaded again.
    LoadRetired {
        module: u32,
    },
    /// The versions were refreshed.
    RefreshOk {
        epoch: u32,
    },
    /// A guest's quiet word is too old for the next version.
    RefreshVersions {
        guest: u32,
        quiet: u32,
    },
    /// The epochs are used up.
    RefreshEpochs,
    /// The module was retired, with this epoch and policy.
    RetireOk {
        module: u32,
        epoch: u32,
        policy: u32,
    },
    /// It is not live: not loaded, or retired before.
    RetireNotLive {
        module: u32,
    },
    /// A live module, of the number `user`, jumps into it.
    RetireInUse {
        module: u32,
        user: u32,
    },
    /// A guest's quiet word is too old for the next version.
    RetireVersions {
        module: u32,
        guest: u32,
        quiet: u32,
    },
    /// The epochs are used up.
    RetireEpochs {
        module: u32,
    },
}

/// A line of the journal.
#[derive(Clone, Copy, Debug, PartialEq, Eq)]
pub struct Entry {
    /// Who asked.
    pub who: Who,
    /// What came of it.
    pub what: JournalLine,
}
