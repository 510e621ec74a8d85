//! A module less that is live, at once.

ghost use Rattle.std.specs.Prelude.{◌<◌, IfOk, length};
ghost use Rattle.cfi_ledger.specs.Roster.{HasRetired};

use crate::roster::Roster;
use cfi_valid::Retirement;
use std::alloc::AllocError;

impl Roster {
    /// Retires the module at a place with a policy. No book is made, and no cells are filled.
    pub fn retire(self, place: usize, policy: u32) -> Result<Roster, AllocError>
        requires { place < length self.placed }
        ensures { IfOk result (HasRetired place policy self) }
    {
        let Roster {
            mut series,
            lines,
            fills,
            mut retired,
            alloc,
        } = self;
        let others = series.others(place)?;
        retired.reserve(1)?;
        retired.push_reserved(Retirement {
            number: lines[place].number,
            policy,
        });
        series.retire(place, others);
        Ok(Roster {
            series,
            lines,
            fills,
            retired,
            alloc,
        })
    }
}
