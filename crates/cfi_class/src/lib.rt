//! Class numbers of branch slots and code addresses: what chains of edges join has one class.
//!
//! Stands on `cfi_word`; `cfi_policy` calls it. Proved: a slot and a code address get one number exactly where a chain
//! of edges joins them, and exactly those without an edge get the number that says so; classes are numbered in the
//! order of their least slots; whether a chain joins two is told exactly. Labels that are kept while edges are added are
//! those of all edges, where a class keeps the least number that it had and a new class takes the least that is left:
//! which labels these are is determined. Only tested, by `cfi_calls`: that ample memory is enough. Open: nothing.
#![tactic(auto)]

mod forest;
mod joined;
mod kept;
mod labels;
mod laws;
mod nodes;
mod numbering;
mod renumbering;
mod sweep;
mod taken;

pub use joined::are_joined;
pub use kept::Kept;
pub use labels::{label, numbers};
pub use laws::kept_labels_are_one;
