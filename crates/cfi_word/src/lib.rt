//! The words of the tables: IDs, packed table words, and the number of each word of the shared table.
//!
//! Stands on `thiserror`. Proved: each call answers exactly what `specs/` says, fields read back, word numbers are
//! distinct, and ranks follow the order of an update's stores. Only tested, by `cfi_calls`: the text of a fault. Open:
//! nothing.
#![tactic(auto)]

mod ids;
mod laws;
mod layout;
pub mod limits;
mod lists;
pub mod map;
pub mod services;
pub mod sizes;
mod word;

pub use ids::{FIELD_MAX, class_of, id, version_of};
pub use laws::{id_laws, layout_laws, rank_laws, word_laws};
pub use layout::{BadSize, EPOCH, FIRST_CODE, Layout};
pub use lists::{Edge, Image, Labels};
pub use word::Word;
