//! Values that many crates have in common, which contracts see as lists, and how results go on.
//!
//! Stands on nothing. Proved: a list is the vector that it is made of and gives back, and a text the bytes of its string.
//! Only tested: nothing. Open: nothing.
#![tactic(auto)]

mod items;
mod text;

pub use items::{Bytes, Items, Numbers};
pub use text::Text;
