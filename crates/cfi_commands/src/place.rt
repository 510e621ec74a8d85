ghost use Rattle.std.specs.Prelude.{◌≡◌, ◌++◌, OnOk, string_bytes};
ghost use Rattle.cfi_commands.specs.Place.{reloc_text, place_text};

use crate::words::{Numbers, put_words};
use cfi_place::PlaceFault;
use rv_reloc::RelocFault;
use std::alloc::AllocError;

// The name of a relocation's fault.
fn reloc_text(fault: RelocFault) -> &'static str
    ensures { result.now ≡ reloc_text fault }
{
    match fault {
        RelocFault::Range => "Range",
        RelocFault::NoPartner => "NoPartner",
        RelocFault::Field => "Field",
    }
}

/// Appends the name and the fields of a fault of placing: a relocation's fault by its number and name.
pub fn put_place(text: &mut String, fault: &PlaceFault) -> Result<(), AllocError>
    ensures { OnOk result (string_bytes text.new ≡ string_bytes text.old ++ place_text fault.now) }
{
    match fault {
        PlaceFault::Undefined(name) => {
            text.push_str("Undefined ")?;
            text.push_str(name.as_str())
        }
        PlaceFault::CodeFull => text.push_str("CodeFull"),
        PlaceFault::DataFull => text.push_str("DataFull"),
        PlaceFault::Reloc(reloc, fault) => {
            put_words(text, "Reloc", Numbers::One(*reloc))?;
            text.push_str(" ")?;
            text.push_str(reloc_text(*fault))
        }
        PlaceFault::Memory => text.push_str("Memory"),
    }
}
