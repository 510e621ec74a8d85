ghost use Rattle.std.specs.Prelude.{◌≡◌, ◌++◌, OnOk, string_bytes};
ghost use Rattle.cfi_commands.specs.Import.{import_text};

use crate::elf::limit_words;
use cfi_import::StubFault;
use std::alloc::AllocError;

/// Appends the name and the field of a fault of stubs.
pub fn put_import(text: &mut String, fault: StubFault) -> Result<(), AllocError>
    ensures { OnOk result (string_bytes text.new ≡ string_bytes text.old ++ import_text fault) }
{
    match fault {
        StubFault::TooMany(limit) => text.push_str(limit_words(limit)),
        StubFault::Memory => text.push_str("Memory"),
    }
}
