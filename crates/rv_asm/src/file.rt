//! What all lines of a source know of the whole.

use cfi_values::Items;
use rv_line::NodeKind;
use rv_names::Names;

/// What all lines of a source know of the whole.
#[derive(Drop)]
pub struct File {
    /// Its names, in the order of their symbols.
    pub names: Names,
    /// The kinds of its type nodes, in their order.
    pub kinds: Items<NodeKind>,
    /// Whether it has records.
    pub records: bool,
}
