//! What relocations compute (RISC-V ELF psABI, "Relocations": S, A and P).

ghost use Rattle.std.specs.Prelude.{◌≡◌, ◌<◌, ◌≤◌, ◌^◌};
ghost use Rattle.rv_insn.specs.Word.{IsSigned};
ghost use Rattle.rv_reloc.specs.Formula.{displacement, number_by, is_reach};
ghost use Rattle.rv_insn.specs.Fields.{high_of, low_of};

use crate::fault::RelocFault;
use crate::table::Formula;

/// S + A - P, in 32 bits: how far the symbol's value and the addend are from the address of the field.
pub fn displacement(value: u32, addend: i32, at: u32) -> u32
    ensures { result ≡ displacement value addend at }
{
    value.wrapping_add(addend.cast_unsigned()).wrapping_sub(at)
}

/// The number that a formula gives, for a symbol of this value and a field at the address `at`.
///
/// `partner` is what the relocation of the high part computes; `NoPartner` where it is wanted and none.
pub fn number_by(
    formula: Formula,
    value: u32,
    addend: i32,
    at: u32,
    partner: Option<u32>,
) -> Result<u32, RelocFault>
    ensures { result ≡ number_by formula value addend at partner }
{
    match formula {
        Formula::Absolute => Ok(value.wrapping_add(addend.cast_unsigned())),
        Formula::Relative => Ok(displacement(value, addend, at)),
        Formula::Partner => partner.ok_or(RelocFault::NoPartner),
    }
}

/// Whether a number, read with its sign, is even and from `-half` to `half - 1`.
pub fn is_reach(half: u32, number: u32) -> bool
    requires small { half ≤ 2 ^ 30 }
    ensures { result ≡ is_reach half number }
{
    number.wrapping_add(half) < 2 * half && number % 2 == 0
}
