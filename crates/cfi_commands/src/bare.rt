ghost use Rattle.std.specs.Prelude.{◌≡◌, ◌++◌, OnOk, string_bytes};
ghost use Rattle.cfi_commands.specs.Bare.{bare_text};

use cfi_bare::BareFault;
use std::alloc::AllocError;

/// Appends the name and the field of a bare file's fault.
pub fn put_bare(text: &mut String, fault: BareFault) -> Result<(), AllocError>
    ensures { OnOk result (string_bytes text.new ≡ string_bytes text.old ++ bare_text fault) }
{
    match fault {
        BareFault::Length(count) => write!(text, "Length {count}"),
        BareFault::Memory => text.push_str("Memory"),
    }
}
