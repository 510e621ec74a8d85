ghost use Rattle.std.specs.Prelude.{◌≡◌, ℕ, ◌^◌, pos, map, Some, IfSome};
ghost use Rattle.rv_insn.specs.declared.insn.Insn.TheVariants as insns;
ghost use Rattle.rv_insn.specs.declared.insn.LoadKind.{LoadKind};
ghost use Rattle.rv_insn.specs.declared.insn.StoreKind.{StoreKind};
ghost use Rattle.rv_insn.specs.Word.{IsSigned};
ghost use Rattle.rv_insn.specs.Insn.{InRange, word_of};
ghost use Rattle.cfi_unit.specs.declared.unit.Unit.TheVariants as units;
ghost use Rattle.cfi_unit.specs.Unit.{IsFree, IsUnit, insns_of, size_of, masked};
ghost use Rattle.cfi_unit.specs.Code.{BeginsAt};

use crate::free::{begins_with, is_free};
use crate::unit::Unit;
use cfi_word::sizes::ACCESS_WORDS;
use rv_insn::{ImmOp, Insn, decode, encode};

// The instructions that do not depend on the access.
const SHIFT_LEFT: u32 = 0x00cf9f93; // slli x31,x31,12

const SHIFT_RIGHT: u32 = 0x00cfdf93; // srli x31,x31,12

const DATA: u32 = 0x40000f37; // lui x30,0x40000

const JOIN: u32 = 0x01efefb3; // or x31,x31,x30

/// The words of an access at a register and an immediate.
pub fn words_by(rs1: u32, imm: i32, access: Insn) -> [u32; ACCESS_WORDS]
    requires free { IsFree rs1 }
    requires short { IsSigned (2 ^ 11) imm }
    requires range { InRange access }
    ensures { result ≡ map word_of (masked rs1 imm access) }
{
    let place = Insn::OpImm {
        op: ImmOp::Addi,
        rd: 31,
        rs1,
        imm,
    };
    [
        encode(&place),
        SHIFT_LEFT,
        SHIFT_RIGHT,
        DATA,
        JOIN,
        encode(&access),
    ]
}

// The unit of an instruction that accesses the masked address.
fn access_of(access: Insn, rs1: u32, imm: i32) -> Option<Unit>
    requires free { IsFree rs1 }
    requires short { IsSigned (2 ^ 11) imm }
    ensures some { IfSome result (λ unit. IsUnit unit × (insns_of unit ≡ masked rs1 imm access)) }
    ensures load { (kind : LoadKind) (rd : ℕ) → IsFree rd → access ≡ insns.Load kind rd 31 (pos 0) →
        result ≡ Some (units.Load kind rd rs1 imm) }
    ensures store { (kind : StoreKind) (rs2 : ℕ) → IsFree rs2 →
        access ≡ insns.Store kind 31 rs2 (pos 0) →
        result ≡ Some (units.Store kind rs1 rs2 imm) }
{
    match access {
        Insn::Load {
            kind,
            rd,
            rs1: 31,
            imm: 0,
        } if is_free(rd) => Some(Unit::Load { kind, rd, rs1, imm }),
        Insn::Store {
            kind,
            rs1: 31,
            rs2,
            imm: 0,
        } if is_free(rs2) => Some(Unit::Store {
            kind,
            rs1,
            rs2,
            imm,
        }),
        _ => None,
    }
}

/// The masked access at a register and an immediate that the words begin with.
pub fn unit_of(words: &[u32], rs1: u32, imm: i32) -> Option<Unit>
    requires free { IsFree rs1 }
    requires short { IsSigned (2 ^ 11) imm }
    ensures some { IfSome result (λ unit. BeginsAt words.now 0 unit) }
    ensures size { IfSome result (λ unit. size_of unit ≡ ACCESS_WORDS) }
    ensures load { (kind : LoadKind) (rd : ℕ) → BeginsAt words.now 0 (units.Load kind rd rs1 imm) →
        result ≡ Some (units.Load kind rd rs1 imm) }
    ensures store { (kind : StoreKind) (rs2 : ℕ) →
        BeginsAt words.now 0 (units.Store kind rs1 rs2 imm) →
        result ≡ Some (units.Store kind rs1 rs2 imm) }
{
    if words.len() < ACCESS_WORDS {
        return None;
    }
    let access = decode(words[5])?;
    let unit = access_of(access, rs1, imm)?;
    if begins_with(words, &words_by(rs1, imm, access)) {
        Some(unit)
    } else {
        None
    }
}
