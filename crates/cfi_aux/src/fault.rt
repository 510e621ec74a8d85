//! Why an object is no module.

ghost use Rattle.std.specs.Prelude.{◌≡◌};
ghost use Rattle.cfi_aux.specs.declared.fault.AuxFault.TheVariants.{Memory};

use cfi_type_table::TypeFault;
use std::alloc::{AllocError, AllocFailed};
use thiserror::Error;

/// Why an object is no module, or bytes are no records: the first fault, in the order of the bytes.
#[derive(Clone, Copy, Debug, PartialEq, Eq, Error)]
pub enum AuxFault {
    /// The object has no section of types, or none of records.
    #[error("the object has no types or no records")]
    NoRecords,
    /// The section of types is no type table.
    #[error("{0}")]
    Types(TypeFault),
    /// The records do not begin with the word of a version.
    #[error("the records have another version")]
    Version,
    /// Bytes are missing, or left over.
    #[error("the record section has too few or too many bytes")]
    Short,
    /// The record of this number is malformed. Functions are counted from 0, and branches on from there. A number of
    /// functions above `MAX_FUNCTIONS` counts as a fault of record `MAX_FUNCTIONS`, and so for branches.
    #[error("record {0} is malformed")]
    BadRecord(u32),
    /// There is no memory for the records.
    #[error("out of memory")]
    Memory,
}

impl From<TypeFault> for AuxFault {
    ghost use Rattle.std.specs.Prelude.{◌≡◌};
    ghost use Rattle.cfi_aux.specs.Modules.{fault_of};

    ghost from_gives = { λ fault e. e ≡ fault_of fault };

    fn from(fault: TypeFault) -> AuxFault {
        match fault {
            TypeFault::Memory => AuxFault::Memory,
            _ => AuxFault::Types(fault),
        }
    }
}

impl From<AllocError> for AuxFault {
    ghost from_gives = { λ _ e. e ≡ Memory };

    fn from(_error: AllocError) -> AuxFault {
        AuxFault::Memory
    }
}

impl<T: Drop> From<AllocFailed<T>> for AuxFault {
    ghost from_gives = { λ _ e. e ≡ Memory };

    fn from(_error: AllocFailed<T>) -> AuxFault {
        AuxFault::Memory
    }
}
