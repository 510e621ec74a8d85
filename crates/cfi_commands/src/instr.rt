ghost use Rattle.std.specs.Prelude.{◌≡◌, ◌++◌, OnOk, string_bytes};
ghost use Rattle.cfi_commands.specs.Instr.{instr_text};
ghost use Rattle.cfi_commands.specs.inner.Words.{numbers_text};

use crate::words::{Numbers, put_words};
use cfi_instr::InstrFault;
use std::alloc::AllocError;

// The name and the field of a fault of the instrumenter.
fn instr_words(fault: InstrFault) -> (&'static str, Numbers)
    ensures { instr_text fault ≡ result.0.now ++ numbers_text result.1 }
{
    match fault {
        InstrFault::Illegal(offset) => ("Illegal", Numbers::One(offset)),
        InstrFault::Reserved(offset) => ("Reserved", Numbers::One(offset)),
        InstrFault::Trap(offset) => ("Trap", Numbers::One(offset)),
        InstrFault::BadLink(offset) => ("BadLink", Numbers::One(offset)),
        InstrFault::BadReloc(reloc) => ("BadReloc", Numbers::One(reloc)),
        InstrFault::Function(function) => ("Function", Numbers::One(function)),
        InstrFault::Stray(offset) => ("Stray", Numbers::One(offset)),
        InstrFault::NoKind(offset) => ("NoKind", Numbers::One(offset)),
        InstrFault::Switch(branch) => ("Switch", Numbers::One(branch)),
        InstrFault::FallsThrough(function) => ("FallsThrough", Numbers::One(function)),
        InstrFault::TooLong => ("TooLong", Numbers::None),
        InstrFault::Memory => ("Memory", Numbers::None),
    }
}

/// Appends the name and the field of a fault of the instrumenter.
pub fn put_instr(text: &mut String, fault: InstrFault) -> Result<(), AllocError>
    ensures { OnOk result (string_bytes text.new ≡ string_bytes text.old ++ instr_text fault) }
{
    let (name, numbers) = instr_words(fault);
    put_words(text, name, numbers)
}
