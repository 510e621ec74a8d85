//! Laws of `decode`, `encode` and the table.

ghost use Rattle.std.specs.Prelude.{◌≡◌, ℕ, ◌^◌, ◌<◌, Some, option_map};
ghost use Rattle.rv_insn.specs.declared.insn.Insn.{Insn};
ghost use Rattle.rv_insn.specs.Insn.{InRange, IsWord};
ghost use Rattle.rv_insn.specs.InsnOf.{insn_of};

use crate::decoder::decode;
use crate::encoder::encode;
use crate::insn::Insn;

/// An instruction is decoded again from its word.
pub fn decode_encoded(insn: &Insn) -> Option<Insn>
    requires { InRange insn.now }
    ensures { result ≡ Some insn.now }
{
    decode(encode(insn))
}

/// A word that is an instruction is encoded again from it; `None` where the word is none.
pub fn encode_decoded(word: u32) -> Option<u32>
    ensures { result ≡ option_map (λ _. word) (insn_of word) }
{
    let insn = decode(word)?;
    Some(encode(&insn))
}

/// A word is at most one instruction, and `insn_of` answers it.
pub fn one_meaning()
    ensures { (insn : Insn) (word : ℕ) → IsWord insn word → insn_of word ≡ Some insn }
{}

/// What `insn_of` answers of a word, the word is.
pub fn meaning_is_exact()
    ensures { (word : ℕ) (insn : Insn) →
        word < 2 ^ 32 → insn_of word ≡ Some insn → IsWord insn word }
{}
