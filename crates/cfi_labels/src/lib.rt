//! The labels of each policy of a run, the cells of late imports at each, and its code: what a replay asks instead of
//! lists of pairs, and what it fills.
//!
//! Stands on `cfi_ledger`, which has the loaded modules, on `cfi_policy`, which makes images, on `cfi_graph`, which
//! makes cells, on `cfi_retire`, which lists the live modules, and on what these stand on. Proved: a slot and an
//! address of the code have one class in the labels of a policy exactly where that policy allows the pair, whatever
//! slot it is; the cells at a policy are those of the modules that it finds loaded, with what their names mean among
//! those that are live under it; there is a set of each for each policy from 0 to the last, in order; the code has
//! the words of all loaded modules at their places, and 0 elsewhere; which modules a policy finds loaded; modules to
//! which a journal leads came with policies that never fall. Only tested: nothing. Open: that memory suffices.
#![tactic(auto)]

mod cells;
mod code;
mod labels;
pub mod laws;
mod live;
mod loaded;

pub use cells::policy_cells;
pub use code::run_code;
pub use labels::policy_labels;
pub use live::is_live;
pub use loaded::loaded_modules;
