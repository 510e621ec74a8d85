//! Reading a module's units, each once.

ghost use Rattle.std.specs.Prelude.{◌*◌, ◌<◌, ◌^◌, length, IfOk, IfErr, IfSome, IfNone};
ghost use Rattle.cfi_unit.specs.Spots.{AreSpots, InsnsBelow};
ghost use Rattle.cfi_verify.specs.inner.Reading.{IsFirstIllegal, IsUnread};

use crate::fault::VerifyFault;
use cfi_unit::{ReadFault, Spot, read_units};
use rv_insn::decode;
use std::alloc::Global;

// The first word that is no instruction, where those before the word `from` are instructions.
fn first_illegal(words: &[u32], from: u32) -> Option<u32>
    requires fits { 4 * length words.now < 2 ^ 32 }
    requires before { InsnsBelow words.now from }
    ensures some { IfSome result (IsFirstIllegal words.now) }
    ensures none { IfNone result (InsnsBelow words.now (length words.now)) }
{
    for at in from..words.len() as u32 {
        if decode(words[at as usize]).is_none() {
            return Some(at);
        }
    }
    None
}

/// The units of the words, or the fault of words that are no units: `Illegal` before `NotUnit`.
pub fn units_of(alloc: Global, words: &[u32]) -> Result<Vec<Spot>, VerifyFault>
    requires { 4 * length words.now < 2 ^ 32 }
    ensures ok { IfOk result (λ spots. AreSpots words.now spots.items) }
    ensures fault { IfErr result (IsUnread words.now) }
{
    let stopped = match read_units(alloc, words) {
        Ok(spots) => return Ok(spots),
        Err(ReadFault::Stops(at)) => at,
        Err(ReadFault::Memory) => return Err(VerifyFault::Memory),
    };
    match first_illegal(words, stopped) {
        Some(at) => Err(VerifyFault::Illegal(4 * at)),
        None => Err(VerifyFault::NotUnit(4 * stopped)),
    }
}
