//! What it takes to retire a module: whether a live one jumps into it, and the list of those that stay.
//!
//! Stands on `cfi_graph`, `cfi_aux`, `cfi_unit` and `cfi_word`. Proved: the first user of a module, and the list of
//! live ones, are exactly those of `specs/Live.antt` of `cfi_graph`; looking for a user takes no memory. Only tested,
//! by `cfi_calls`: both, of modules that are written by hand. Open: nothing.
#![tactic(auto)]

mod live;
mod user;

pub use live::live_list;
pub use user::user_of;
