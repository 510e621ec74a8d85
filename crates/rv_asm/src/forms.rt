//! The words of instructions, a function a form. `None` where a number is outside its field.

ghost use Rattle.std.specs.Prelude.{◌≡◌, ◌^◌, Some, option_and_then};
ghost use Rattle.rv_insn.specs.declared.insn.Insn.TheVariants as insns;
ghost use Rattle.rv_asm.specs.Words.{low_field, imm_field, high_field, offset_field, one};

use crate::words::{Words, branch_field, high_field, imm_field, jump_field, low_field, one};
use rv_insn::{Cond, ImmOp, Insn, LoadKind, Op, StoreKind};
use rv_line::{High, Low, Register};

/// `add` and its kin.
pub fn op_words(op: Op, rd: Register, rs1: Register, rs2: Register) -> Words
    ensures { result ≡ one (insns.Op op rd rs1 rs2) }
{
    one(Insn::Op {
        op,
        rd: rd.number(),
        rs1: rs1.number(),
        rs2: rs2.number(),
    })
}

/// `addi` and its kin.
pub fn imm_op_words(op: ImmOp, rd: Register, rs1: Register, imm: &Low) -> Option<Words>
    ensures { result ≡ option_and_then (λ field. Some (one (insns.OpImm op rd rs1 field)))
        (imm_field op imm.now) }
{
    let imm = imm_field(op, imm)?;
    Some(one(Insn::OpImm {
        op,
        rd: rd.number(),
        rs1: rs1.number(),
        imm,
    }))
}

/// `lw` and its kin.
pub fn load_words(kind: LoadKind, rd: Register, rs1: Register, imm: &Low) -> Option<Words>
    ensures { result ≡ option_and_then (λ field. Some (one (insns.Load kind rd rs1 field)))
        (low_field imm.now) }
{
    let imm = low_field(imm)?;
    Some(one(Insn::Load {
        kind,
        rd: rd.number(),
        rs1: rs1.number(),
        imm,
    }))
}

/// `sw` and its kin.
pub fn store_words(kind: StoreKind, rs1: Register, rs2: Register, imm: &Low) -> Option<Words>
    ensures { result ≡ option_and_then (λ field. Some (one (insns.Store kind rs1 rs2 field)))
        (low_field imm.now) }
{
    let imm = low_field(imm)?;
    Some(one(Insn::Store {
        kind,
        rs1: rs1.number(),
        rs2: rs2.number(),
        imm,
    }))
}

/// `beq` and its kin, by how far they lead.
pub fn branch_words(cond: Cond, rs1: Register, rs2: Register, offset: i64) -> Option<Words>
    ensures { result ≡ option_and_then (λ field. Some (one (insns.Branch cond rs1 rs2 field)))
        (offset_field (2 ^ 12) offset) }
{
    let off = branch_field(offset)?;
    Some(one(Insn::Branch {
        cond,
        rs1: rs1.number(),
        rs2: rs2.number(),
        off,
    }))
}

/// `lui`.
pub fn lui_words(rd: Register, imm: &High) -> Option<Words>
    ensures { result ≡ option_and_then (λ field. Some (one (insns.Lui rd field)))
        (high_field imm.now) }
{
    let imm = high_field(imm)?;
    Some(one(Insn::Lui {
        rd: rd.number(),
        imm,
    }))
}

/// `auipc`.
pub fn auipc_words(rd: Register, imm: &High) -> Option<Words>
    ensures { result ≡ option_and_then (λ field. Some (one (insns.Auipc rd field)))
        (high_field imm.now) }
{
    let imm = high_field(imm)?;
    Some(one(Insn::Auipc {
        rd: rd.number(),
        imm,
    }))
}

/// `jal`, by how far it leads.
pub fn jal_words(rd: Register, offset: i64) -> Option<Words>
    ensures { result ≡ option_and_then (λ field. Some (one (insns.Jal rd field)))
        (offset_field (2 ^ 20) offset) }
{
    let off = jump_field(offset)?;
    Some(one(Insn::Jal {
        rd: rd.number(),
        off,
    }))
}

/// `jalr`.
pub fn jalr_words(rd: Register, rs1: Register, imm: &Low) -> Option<Words>
    ensures { result ≡ option_and_then (λ field. Some (one (insns.Jalr rd rs1 field)))
        (low_field imm.now) }
{
    let imm = low_field(imm)?;
    Some(one(Insn::Jalr {
        rd: rd.number(),
        rs1: rs1.number(),
        imm,
    }))
}
