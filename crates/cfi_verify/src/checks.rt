//! The checks of a module.

ghost use Rattle.std.specs.Prelude.{◌≡◌, IfOk};
ghost use Rattle.cfi_verify.specs.Spots.{check_of, checks_of};

use cfi_unit::{Spot, Unit};
use std::alloc::{AllocError, Global};

/// A check of a module, and where it stands.
#[derive(Clone, Copy, Debug, PartialEq, Eq)]
pub struct CheckSpot {
    /// The number of its first word, from the module's first, from 0.
    pub at: u32,
    /// Whether it puts the address after it into x1.
    pub link: bool,
    /// The slot that it names.
    pub slot: u32,
}

// The check that a unit is.
fn check_of(spot: Spot) -> Option<CheckSpot>
    ensures { result ≡ check_of spot }
{
    let at = spot.at;
    match spot.unit {
        Unit::Check { link, slot, .. } => Some(CheckSpot { at, link, slot }),
        _ => None,
    }
}

/// The checks among the units, in their order.
pub fn checks_of(alloc: Global, spots: &[Spot]) -> Result<Vec<CheckSpot>, AllocError>
    ensures { IfOk result (λ checks. checks.items ≡ checks_of spots.now) }
{
    spots
        .iter()
        .filter_map(|spot| check_of(*spot))
        .collect(alloc)
}
