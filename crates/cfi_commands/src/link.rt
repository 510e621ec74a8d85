ghost use Rattle.std.specs.Prelude.{◌≡◌, ◌++◌, OnOk, string_bytes};
ghost use Rattle.cfi_commands.specs.Link.{link_text};

use crate::elf::limit_words;
use crate::words::{Numbers, put_words};
use cfi_link::LinkFault;
use std::alloc::AllocError;

/// Appends the name and the fields of a fault of the linker.
pub fn put_link(text: &mut String, fault: &LinkFault) -> Result<(), AllocError>
    ensures { OnOk result (string_bytes text.new ≡ string_bytes text.old ++ link_text fault.now) }
{
    match fault {
        LinkFault::NoText => text.push_str("NoText"),
        LinkFault::NotUnit(number, offset) => {
            put_words(text, "NotUnit", Numbers::Two(*number, *offset))
        }
        LinkFault::TooMany(limit) => text.push_str(limit_words(*limit)),
        LinkFault::Twice(name) => {
            text.push_str("Twice ")?;
            text.push_str(name.as_str())
        }
        LinkFault::BadReloc(number, reloc) => {
            put_words(text, "BadReloc", Numbers::Two(*number, *reloc))
        }
        LinkFault::Memory => text.push_str("Memory"),
    }
}
