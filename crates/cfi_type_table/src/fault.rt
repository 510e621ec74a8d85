//! Why bytes are no type table.

ghost use Rattle.std.specs.Prelude.{◌≡◌};
ghost use Rattle.cfi_type_table.specs.declared.fault.TypeFault.TheVariants.{Memory};

use std::alloc::{AllocError, AllocFailed};
use thiserror::Error;

/// Why bytes are no type table: their first fault, in the order of the bytes.
#[derive(Clone, Copy, Debug, PartialEq, Eq, Error)]
pub enum TypeFault {
    /// The node of this number, from 0, has no kind, number of fields or field that a node may have.
    /// The number of all nodes, where it is above `MAX_NODES`, counts as a fault of node `MAX_NODES`.
    #[error("type node {0} is malformed")]
    BadNode(u32),
    /// The node of this number, from 0, names a node that is not there.
    #[error("type node {0} names a node that is not there")]
    BadIndex(u32),
    /// A word is missing, or bytes are left over.
    #[error("the type section has too few or too many bytes")]
    Short,
    /// There is no memory for the table.
    #[error("out of memory")]
    Memory,
}

impl From<AllocError> for TypeFault {
    ghost from_gives = { λ _ e. e ≡ Memory };

    fn from(_e: AllocError) -> TypeFault {
        TypeFault::Memory
    }
}

impl<T: Drop> From<AllocFailed<T>> for TypeFault {
    ghost from_gives = { λ _ e. e ≡ Memory };

    fn from(_e: AllocFailed<T>) -> TypeFault {
        TypeFault::Memory
    }
}
