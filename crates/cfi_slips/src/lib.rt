//! Slips: what a journal tells in a guest's name is told beside the guest's own slip.
//!
//! Stands on `cfi_plan`, `cfi_word` and the kit's `atomic_table`. Proved: a guest has one slip at most that is out, and
//! what a slip says are, in order, the lines that its stubs have told in its guest's name; a line is told in a guest's
//! name by its slip alone, and stands on both from then on; nothing of it is more than one word of memory. Open: nothing.
#![tactic(auto)]

mod pad;
mod rule;
mod slip;
mod stubs;
mod view;

pub use pad::Pad;
pub use rule::SlipsName;
pub use slip::Slip;
pub use stubs::Stubs;
pub use view::SlipView;
