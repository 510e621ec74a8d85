//! Control flow over numbered nodes: which branches may go to which code addresses.
//!
//! A node is what may be entered: a function, or all functions that pointers of one type may lead to. Stands on
//! `cfi_word`. Proved: the edges of a flow are exactly those that it states, in order, each once; some of them have
//! chains that join what any edge joins, and are at most two for each link; where links are added to a kept flow, so
//! are edges, which do the same with those before; those that are no edges of a part of the flow are told without the
//! others; the rows of links are where the links from each number lead. Only tested, by `cfi_calls`: that ample memory
//! is enough, but for the kept flow and the edges that are none of a part. Open: nothing.
#![tactic(auto)]

mod edges;
mod fan;
mod fans;
mod fresh;
mod kept;
mod kept_ways;
mod links;
mod reach;
mod rows;
mod spread;
mod star;
mod tagged;
mod ways;

pub use edges::{all_edges, few_edges};
pub use fresh::{fresh_edges, other_links};
pub use kept::KeptFlow;
pub use links::{Flow, Link};
pub use rows::{Rows, rows_of};
