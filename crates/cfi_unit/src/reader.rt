ghost use Rattle.std.specs.Prelude.{◌≡◌, ℕ, ◌≤◌, ◌^◌, ℤ, ◌∷◌, [], length, Some, IfSome};
ghost use Rattle.rv_insn.specs.declared.insn.Insn.TheVariants as insns;
ghost use Rattle.rv_insn.specs.declared.insn.ImmOp.TheVariants.{Addi};
ghost use Rattle.rv_insn.specs.Word.{IsSigned};
ghost use Rattle.rv_insn.specs.Insn.{InRange};
ghost use Rattle.cfi_unit.specs.declared.unit.Unit.{Unit as CodeUnit};
ghost use Rattle.cfi_unit.specs.Unit.{IsFree, IsUnit, IsLong, insns_of, size_of};
ghost use Rattle.cfi_unit.specs.Code.{BeginsAt};

use crate::free::is_free;
use crate::unit::Unit;
use crate::{check, masked};
use cfi_word::sizes::{ACCESS_WORDS, CHECK_WORDS};
use rv_insn::{ImmOp, Insn, decode};

// The unit whose spelling is this one instruction.
fn single_of(insn: Insn) -> Option<Unit>
    requires { InRange insn }
    ensures some { IfSome result (λ unit. IsUnit unit × (insns_of unit ≡ insn ∷ [])) }
    ensures only { (unit : CodeUnit) → IsUnit unit → insns_of unit ≡ insn ∷ [] →
        result ≡ Some unit }
{
    match insn {
        Insn::Lui { rd, .. } | Insn::Auipc { rd, .. } if is_free(rd) => Some(Unit::Plain(insn)),
        Insn::OpImm { rd, rs1, .. } if is_free(rd) && is_free(rs1) => Some(Unit::Plain(insn)),
        Insn::Op { rd, rs1, rs2, .. } if is_free(rd) && is_free(rs1) && is_free(rs2) => {
            Some(Unit::Plain(insn))
        }
        Insn::Fence { .. } => Some(Unit::Plain(insn)),
        Insn::Branch {
            cond,
            rs1,
            rs2,
            off,
        } if is_free(rs1) && is_free(rs2) => {
            Some(Unit::Branch {
                cond,
                rs1,
                rs2,
                off,
            })
        }
        Insn::Jal { rd: 0, off } => Some(Unit::Jump { link: false, off }),
        Insn::Jal { rd: 1, off } => Some(Unit::Jump { link: true, off }),
        Insn::Ecall => Some(Unit::Service),
        _ => None,
    }
}

// The register and the immediate of `addi x31,rs1,imm`, with which each unit of several words begins.
fn place_of(insn: Insn) -> Option<(u32, i32)>
    ensures some { IfSome result (λ p. IsFree p.0 × (insn ≡ insns.OpImm Addi 31 p.0 p.1)) }
    ensures only { (rs1 : ℕ) (imm : ℤ) → IsFree rs1 → insn ≡ insns.OpImm Addi 31 rs1 imm →
        result ≡ Some (rs1, imm) }
{
    match insn {
        Insn::OpImm {
            op: ImmOp::Addi,
            rd: 31,
            rs1,
            imm,
        } if is_free(rs1) => Some((rs1, imm)),
        _ => None,
    }
}

// The unit of more than one word that the words begin with: an access or a check of this register and immediate.
fn long_of(words: &[u32], rs1: u32, imm: i32) -> Option<(Unit, u32)>
    requires free { IsFree rs1 }
    requires short { IsSigned (2 ^ 11) imm }
    ensures some { IfSome result (λ found. BeginsAt words.now 0 found.0) }
    ensures size { IfSome result (λ found. found.1 ≡ size_of found.0) }
    ensures only { (unit : CodeUnit) → IsLong unit rs1 imm → BeginsAt words.now 0 unit →
        result ≡ Some (unit, size_of unit) }
{
    if let Some(unit) = masked::unit_of(words, rs1, imm) {
        return Some((unit, ACCESS_WORDS as u32));
    }
    let unit = check::unit_of(words, rs1, imm)?;
    Some((unit, CHECK_WORDS as u32))
}

/// The unit whose spelling begins at a place, and its number of words.
///
/// `at` is a word number of `words`, at most their number. `None` exactly where no unit's spelling begins there.
pub fn next_unit(words: &[u32], at: u32) -> Option<(Unit, u32)>
    requires within { at ≤ length words.now }
    ensures some { IfSome result (λ found. BeginsAt words.now at found.0) }
    ensures size { IfSome result (λ found. found.1 ≡ size_of found.0) }
    ensures only { (unit : CodeUnit) → BeginsAt words.now at unit →
        result ≡ Some (unit, size_of unit) }
{
    let at = at as usize;
    if at == words.len() {
        return None;
    }
    let insn = decode(words[at])?;
    if let Some((rs1, imm)) = place_of(insn) {
        return long_of(&words[at..], rs1, imm);
    }
    Some((single_of(insn)?, 1))
}
