ghost use Rattle.std.specs.Prelude.{◌≡◌, ◌++◌, OnOk, string_bytes};
ghost use Rattle.cfi_commands.specs.Aux.{types_text, aux_text};

use crate::words::{Numbers, put_words};
use cfi_aux::AuxFault;
use cfi_type_table::TypeFault;
use std::alloc::AllocError;

// Appends the name and the field of a type table's fault.
fn put_types(text: &mut String, fault: TypeFault) -> Result<(), AllocError>
    ensures { OnOk result (string_bytes text.new ≡ string_bytes text.old ++ types_text fault) }
{
    match fault {
        TypeFault::BadNode(node) => put_words(text, "BadNode", Numbers::One(node)),
        TypeFault::BadIndex(node) => put_words(text, "BadIndex", Numbers::One(node)),
        TypeFault::Short => text.push_str("Short"),
        TypeFault::Memory => text.push_str("Memory"),
    }
}

/// Appends the layer, the name and the field of a module's fault: a fault of its types is one of the layer `types`.
pub fn put_aux(text: &mut String, fault: AuxFault) -> Result<(), AllocError>
    ensures { OnOk result (string_bytes text.new ≡ string_bytes text.old ++ aux_text fault) }
{
    match fault {
        AuxFault::NoRecords => text.push_str("aux NoRecords"),
        AuxFault::Types(fault) => {
            text.push_str("types ")?;
            put_types(text, fault)
        }
        AuxFault::Version => text.push_str("aux Version"),
        AuxFault::Short => text.push_str("aux Short"),
        AuxFault::BadRecord(record) => write!(text, "aux BadRecord {record}"),
        AuxFault::Memory => text.push_str("aux Memory"),
    }
}
