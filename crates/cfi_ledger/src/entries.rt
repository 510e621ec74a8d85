//! Where the guests of a plan begin.

ghost use Rattle.std.specs.Prelude.{◌≡◌, ◌≤◌, ℕ, Some, All, IfSome, IfNone, length};
ghost use Rattle.cfi_modules.specs.Entry.{HasAddresses};
ghost use Rattle.cfi_valid.specs.Bare.{is_bare_plan, has_no_file};
ghost use Rattle.cfi_valid.specs.Guests.{EntersIn};
ghost use Rattle.cfi_word.specs.declared.limits.TheConstants.{GUESTS};
ghost use Rattle.cfi_ledger.specs.Entries.{AllEnter, IsFirstOut};

use cfi_aux::Placed;
use cfi_modules::entry_in;
use cfi_plan::{Plan, PlanModule};
use cfi_values::Text;
use cfi_word::map::FIRST_BASE;

// The file of a module has no name.
fn has_no_file(one: &PlanModule) -> bool
    ensures { result ≡ has_no_file one.now }
{
    one.file.as_str().is_empty()
}

// The plan stands for a bare file.
fn is_bare(plan: &Plan) -> bool
    ensures { result ≡ is_bare_plan plan.now }
{
    plan.modules.as_slice().iter().any(has_no_file)
}

/// Where a guest of this entry begins, where `starts` are the start modules.
pub fn entry_at(plan: &Plan, starts: &[Placed], entry: &str) -> Option<u32>
    requires { All HasAddresses starts.now }
    ensures some { IfSome result (EntersIn plan.now starts.now entry.now) }
    ensures only { (address : ℕ) → EntersIn plan.now starts.now entry.now address →
        result ≡ Some address }
{
    if is_bare(plan) {
        return Some(4 * FIRST_BASE);
    }
    entry_in(starts, entry)
}

/// The first guest that has nowhere to begin.
pub(crate) fn first_lost(plan: &Plan, starts: &[Placed]) -> Option<u32>
    requires addresses { All HasAddresses starts.now }
    requires few { length plan.now.guests ≤ GUESTS }
    ensures some { IfSome result (IsFirstOut plan.now starts.now) }
    ensures none { IfNone result (AllEnter plan.now starts.now) }
{
    for (number, entry) in plan.guests.as_slice().iter().enumerate() {
        match entry_at(plan, starts, entry.as_str()) {
            Some(_) => {}
            None => return Some(number as u32),
        }
    }
    None
}
