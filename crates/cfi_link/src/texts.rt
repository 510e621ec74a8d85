//! Whether the texts of modules are units from their start to their end.

ghost use Rattle.std.specs.Prelude.{◌≡◌, ◌<◌, ◌^◌, All, length, IfOk, IfSome, IfNone, IfErr, OnOk};
ghost use Rattle.cfi_link.specs.inner.Kept.{IsTextFault};
ghost use Rattle.cfi_link.specs.Fault.{has_text, HaveTexts};
ghost use Rattle.cfi_unit.specs.Spots.{AreUnits, StopsAt};

use crate::fault::LinkFault;
use cfi_aux::Module;
use cfi_place::words_of;
use cfi_unit::{ReadFault, read_units};
use std::alloc::{AllocError, Global};

// The first word at which units that are read from the first word on stop, where that is not the end.
fn stray_word(alloc: Global, words: &[u32]) -> Result<Option<u32>, AllocError>
    requires { length words.now < 2 ^ 30 }
    ensures some { IfOk result (λ found. IfSome found (StopsAt words.now)) }
    ensures none { IfOk result (λ found. IfNone found (AreUnits words.now)) }
{
    match read_units(alloc, words) {
        Ok(_) => Ok(None),
        Err(ReadFault::Stops(at)) => Ok(Some(at)),
        Err(ReadFault::Memory) => Err(AllocError),
    }
}

// Whether some module has a word of text.
fn has_text(modules: &[Module]) -> bool
    ensures { result ≡ has_text modules.now }
{
    modules.iter().any(|one| one.object.text.len() != 0)
}

/// Refuses modules without text, and the first text that is not units from its start to its end.
pub fn check_texts(alloc: Global, modules: &[Module]) -> Result<(), LinkFault>
    requires count { length modules.now < 2 ^ 32 }
    requires texts { All (λ m. length m.object.text < 2 ^ 32) modules.now }
    ensures ok { OnOk result (HaveTexts modules.now) }
    ensures fault { IfErr result (IsTextFault modules.now) }
{
    if !has_text(modules) {
        return Err(LinkFault::NoText);
    }
    for (number, one) in modules.iter().enumerate() {
        let words = words_of(alloc, one.object.text.as_slice())?;
        let stray = stray_word(alloc, &words)?;
        if let Some(at) = stray {
            return Err(LinkFault::NotUnit(number as u32, 4 * at));
        }
    }
    Ok(())
}
