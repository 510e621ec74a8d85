ghost use Rattle.std.specs.Prelude.{◌≡◌, ◌++◌, OnOk, string_bytes};
ghost use Rattle.cfi_commands.specs.Asm.{asm_text};
ghost use Rattle.cfi_commands.specs.inner.Words.{numbers_text};

use crate::words::{Numbers, put_words};
use rv_asm::AsmFault;
use std::alloc::AllocError;

// The name and the line of a source's fault.
fn asm_words(fault: AsmFault) -> (&'static str, Numbers)
    ensures { asm_text fault ≡ result.0.now ++ numbers_text result.1 }
{
    match fault {
        AsmFault::Syntax(line) => ("Syntax", Numbers::One(line)),
        AsmFault::UnknownName(line) => ("UnknownName", Numbers::One(line)),
        AsmFault::Twice(line) => ("Twice", Numbers::One(line)),
        AsmFault::Range(line) => ("Range", Numbers::One(line)),
        AsmFault::Memory => ("Memory", Numbers::None),
    }
}

/// Appends the name and the line of a source's fault.
pub fn put_asm(text: &mut String, fault: AsmFault) -> Result<(), AllocError>
    ensures { OnOk result (string_bytes text.new ≡ string_bytes text.old ++ asm_text fault) }
{
    let (name, numbers) = asm_words(fault);
    put_words(text, name, numbers)
}
