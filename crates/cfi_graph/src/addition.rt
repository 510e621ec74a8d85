//! What a module adds to the links of those before it.

use cfi_flow::{Flow, Link};
use cfi_types::Classes;

// What a module adds to the links of those before it.
#[derive(Drop)]
pub(crate) struct Addition {
    // The classes of the types of all.
    pub(crate) classes: Classes,
    // Further links between classes, each to a wider one.
    pub(crate) wider: Vec<Link>,
    pub(crate) flow: Flow,
}
