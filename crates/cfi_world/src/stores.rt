//! How many stores an update makes, and which come next.

ghost use Rattle.std.specs.Prelude.{◌≡◌, ◌+◌, ◌≤◌, drop, length};
ghost use Rattle.cfi_word.specs.Rank.{stores_of};
ghost use Rattle.cfi_word.specs.Table.{IsSize};
ghost use Rattle.cfi_model.specs.Phases.{phase_after};
ghost use Rattle.cfi_world.specs.Updates.{agreeing};

use cfi_model::Phase;
use cfi_word::Layout;

/// The number of stores of an update.
pub fn stores(layout: &Layout) -> u32
    ensures number { result ≡ stores_of layout.now }
    ensures size { IsSize layout.now }
{
    2 * layout.code_words() + 1 + layout.slots()
}

/// The phase after so many stores.
pub fn phase_after(layout: &Layout, stored: u32) -> Phase
    ensures { result ≡ phase_after layout.now stored }
{
    let code_words = layout.code_words();
    if stored < code_words {
        Phase::Code(stored)
    } else if stored < 2 * code_words {
        Phase::Tary(stored - code_words)
    } else if stored == 2 * code_words {
        Phase::Epoch
    } else if stored < stores(layout) {
        Phase::Bary(stored - (2 * code_words + 1))
    } else {
        Phase::Idle
    }
}

/// The first place from here on where two lists do not agree, or where one of them ends.
pub fn parting(old: &[u32], new: &[u32], from: usize) -> usize
    ensures place { result ≡ from + agreeing (drop from old.now) (drop from new.now) }
    ensures most { result ≤ from + length old.now }
{
    let mut at = from;
    while at < old.len() && at < new.len() && old[at] == new[at] {
        at += 1;
    }
    at
}
