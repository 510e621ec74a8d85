//! What an update brings.

ghost use Rattle.std.specs.Prelude.{◌≡◌};
ghost use Rattle.cfi_sim.specs.inner.Pending.{aim_by};

use crate::aim::Aim;
use cfi_ledger::Offer;

/// What the update brings whose EPOCH store is not made yet.
#[derive(Drop)]
pub enum Pending {
    /// A module, as it was placed when its load began.
    Load(Offer),
    /// The next epoch alone.
    Refresh,
}

impl Pending {
    /// What the update is for.
    pub fn aim(&self) -> Aim
        ensures { result ≡ aim_by self.now }
    {
        match self {
            Pending::Load(offer) => Aim::Loading(offer.number()),
            Pending::Refresh => Aim::Refreshing,
        }
    }
}
