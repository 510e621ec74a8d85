//! What stands against a load before its module is tried.

ghost use Rattle.cfi_ledger.specs.Loads.{IsProspect};

use crate::roster::Roster;

/// What stands against the load of a module before the module is tried, in this order.
#[derive(Clone, Copy, Debug, PartialEq, Eq)]
pub enum Prospect {
    /// It is live, at this place in load order.
    Again(usize),
    /// It was retired, at this place in load order.
    Retired(usize),
    /// It is not loaded, and no further module may be.
    Full,
    /// Nothing.
    Open,
}

impl Roster {
    /// What stands against the load of the module of this number before the module is tried.
    pub fn prospect(&self, number: u32) -> Prospect
        ensures { IsProspect self.now number result }
    {
        match self.find(number) {
            Some(at) if self.flags()[at] => Prospect::Again(at),
            Some(at) => Prospect::Retired(at),
            None if self.is_full() => Prospect::Full,
            None => Prospect::Open,
        }
    }
}
