ghost use Rattle.std.specs.Prelude.{◌≡◌, ◌++◌, OnOk, string_bytes};
ghost use Rattle.cfi_commands.specs.Verify.{verify_text};
ghost use Rattle.cfi_commands.specs.inner.Words.{numbers_text};

use crate::words::{Numbers, put_words};
use cfi_verify::VerifyFault;
use std::alloc::AllocError;

// The layer and the name, and the field, of a placed module's fault.
fn verify_words(fault: VerifyFault) -> (&'static str, Numbers)
    ensures { verify_text fault ≡ result.0.now ++ numbers_text result.1 }
{
    match fault {
        VerifyFault::Empty => ("verify Empty", Numbers::None),
        VerifyFault::Illegal(offset) => ("verify Illegal", Numbers::One(offset)),
        VerifyFault::NotUnit(offset) => ("verify NotUnit", Numbers::One(offset)),
        VerifyFault::Slot(offset) => ("verify Slot", Numbers::One(offset)),
        VerifyFault::Functions(function) => ("verify Functions", Numbers::One(function)),
        VerifyFault::FallsThrough(function) => ("verify FallsThrough", Numbers::One(function)),
        VerifyFault::Target(offset) => ("verify Target", Numbers::One(offset)),
        VerifyFault::Kinds(offset) => ("verify Kinds", Numbers::One(offset)),
        VerifyFault::Switch(branch) => ("verify Switch", Numbers::One(branch)),
        VerifyFault::Memory => ("verify Memory", Numbers::None),
    }
}

/// Appends the layer, the name and the field of a placed module's fault: a place in bytes, or a number.
pub fn put_verify_fault(text: &mut String, fault: VerifyFault) -> Result<(), AllocError>
    ensures { OnOk result (string_bytes text.new ≡ string_bytes text.old ++ verify_text fault) }
{
    let (name, numbers) = verify_words(fault);
    put_words(text, name, numbers)
}
