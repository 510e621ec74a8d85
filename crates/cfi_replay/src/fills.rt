//! The data that comes with policies, and the cells of late imports at each.

ghost use Rattle.std.specs.Prelude.{◌≡◌, ◌≤◌, drop, length, take};
ghost use Rattle.std.specs.List.{All};
ghost use Rattle.cfi_model.specs.Data.{LiesInData};
ghost use Rattle.cfi_modules.specs.Entry.{HasAddresses};
ghost use Rattle.cfi_modules.specs.Series.{IsSeries};
ghost use Rattle.cfi_replay.specs.Setting.{IsSetting, loaded_in, members_in};
ghost use Rattle.cfi_valid.specs.Loaded.{cells_at, data_between, start_data, placed_modules, loaded_by};

use crate::setting::Setting;
use cfi_aux::Placed;
use cfi_labels::loaded_modules;
use cfi_modules::loaded_have_entries;
use cfi_unit::Fill;

// The fills from one to another.
fn fills_in(fills: &[Fill], from: usize, to: usize) -> &[Fill]
    requires order { from ≤ to }
    requires within { to ≤ length fills.now }
    ensures { result.now ≡ drop from (take to fills.now) }
{
    let early = &fills[..to];
    &early[from..]
}

impl Setting<'_> {
    /// The start modules, as they are placed.
    pub(crate) fn start_modules(&self) -> &[Placed]
        requires { IsSetting self.now }
        ensures is { result.now ≡ placed_modules (loaded_by 0 (loaded_in self.now)) }
        ensures addresses { All HasAddresses result.now }
    {
        loaded_have_entries();
        loaded_modules(self.roster, 0)
    }

    /// Their data.
    pub(crate) fn start_data(&self) -> &[Fill]
        requires { IsSetting self.now }
        ensures is { result.now ≡ start_data (loaded_in self.now) }
        ensures lies { All LiesInData result.now }
        ensures series { IsSeries self.now.roster.now.code_words self.now.roster.now.placed }
    {
        let starts = loaded_modules(self.roster, 0).len();
        let data = self.roster.data();
        fills_in(data, 0, starts)
    }

    /// The data that came above one policy and up to another.
    pub(crate) fn data_between(&self, above: u32, upto: u32) -> &[Fill]
        requires setting { IsSetting self.now }
        requires order { above ≤ upto }
        ensures is { result.now ≡ data_between above upto (loaded_in self.now) }
        ensures lies { All LiesInData result.now }
        ensures series { IsSeries self.now.roster.now.code_words self.now.roster.now.placed }
    {
        let from = loaded_modules(self.roster, above).len();
        let to = loaded_modules(self.roster, upto).len();
        let data = self.roster.data();
        fills_in(data, from, to)
    }

    /// The cells at a policy.
    pub(crate) fn cells_at(&self, policy: u32) -> &[Fill]
        requires setting { IsSetting self.now }
        requires most { policy ≤ self.now.force }
        requires series { IsSeries self.now.roster.now.code_words self.now.roster.now.placed }
        ensures is { result.now ≡ cells_at policy (members_in self.now) }
        ensures lies { All LiesInData result.now }
    {
        self.cells[policy as usize].as_slice()
    }
}
