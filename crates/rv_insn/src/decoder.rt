ghost use Rattle.std.specs.Prelude.{◌≡◌, ◌%◌, ◌^◌, Some, IfSome};
ghost use Rattle.rv_insn.specs.declared.insn.Insn.{Insn};
ghost use Rattle.rv_insn.specs.declared.opcode.TheConstants.{FENCE};
ghost use Rattle.rv_insn.specs.Insn.{IsWord};
ghost use Rattle.rv_insn.specs.Fields.{fields_at, imm_i_at, imm_s_at, imm_b_at};
ghost use Rattle.rv_insn.specs.InsnOf.{insn_of, jalr_row, branch_row, load_row, store_row, imm_row, op_row, fence_row, system_row};

use crate::fields::{fields_of, imm_b, imm_i, imm_j, imm_s, imm_u};
use crate::insn::{ImmOp, Insn};
use crate::opcode;
use crate::rows::{cond_of, imm_op_of, load_of, op_of, store_of};

fn jalr_of(word: u32) -> Option<Insn>
    ensures { let f = fields_at word in result ≡ jalr_row f.funct3 f.rd f.rs1 (imm_i_at word) }
{
    let f = fields_of(word);
    if f.funct3 != 0 {
        return None;
    }
    let imm = imm_i(word).cast_signed();
    Some(Insn::Jalr {
        rd: f.rd,
        rs1: f.rs1,
        imm,
    })
}

fn branch_of(word: u32) -> Option<Insn>
    ensures { let f = fields_at word in result ≡ branch_row f.funct3 f.rs1 f.rs2 (imm_b_at word) }
{
    let f = fields_of(word);
    let cond = cond_of(f.funct3)?;
    let off = imm_b(word).cast_signed();
    Some(Insn::Branch {
        cond,
        rs1: f.rs1,
        rs2: f.rs2,
        off,
    })
}

fn load_insn_of(word: u32) -> Option<Insn>
    ensures { let f = fields_at word in result ≡ load_row f.funct3 f.rd f.rs1 (imm_i_at word) }
{
    let f = fields_of(word);
    let kind = load_of(f.funct3)?;
    let imm = imm_i(word).cast_signed();
    Some(Insn::Load {
        kind,
        rd: f.rd,
        rs1: f.rs1,
        imm,
    })
}

fn store_insn_of(word: u32) -> Option<Insn>
    ensures { let f = fields_at word in result ≡ store_row f.funct3 f.rs1 f.rs2 (imm_s_at word) }
{
    let f = fields_of(word);
    let kind = store_of(f.funct3)?;
    let imm = imm_s(word).cast_signed();
    Some(Insn::Store {
        kind,
        rs1: f.rs1,
        rs2: f.rs2,
        imm,
    })
}

fn imm_insn_of(word: u32) -> Option<Insn>
    ensures { let f = fields_at word in
        result ≡ imm_row f.funct3 f.funct7 f.rd f.rs1 f.rs2 (imm_i_at word) }
{
    let f = fields_of(word);
    let op = imm_op_of(f.funct3, f.funct7)?;
    let imm = match op {
        ImmOp::Slli | ImmOp::Srli | ImmOp::Srai => f.rs2.cast_signed(),
        _ => imm_i(word).cast_signed(),
    };
    Some(Insn::OpImm {
        op,
        rd: f.rd,
        rs1: f.rs1,
        imm,
    })
}

fn op_insn_of(word: u32) -> Option<Insn>
    ensures { let f = fields_at word in result ≡ op_row f.funct3 f.funct7 f.rd f.rs1 f.rs2 }
{
    let f = fields_of(word);
    let op = op_of(f.funct3, f.funct7)?;
    Some(Insn::Op {
        op,
        rd: f.rd,
        rs1: f.rs1,
        rs2: f.rs2,
    })
}

fn fence_of(word: u32) -> Option<Insn>
    requires { word % 2 ^ 7 ≡ FENCE }
    ensures { let f = fields_at word in result ≡ fence_row f.funct3 word }
{
    if fields_of(word).funct3 != 0 {
        return None;
    }
    Some(Insn::Fence {
        fields: word - opcode::FENCE,
    })
}

fn system_of(word: u32) -> Option<Insn>
    ensures { result ≡ system_row word }
{
    match word {
        opcode::ECALL => Some(Insn::Ecall),
        opcode::EBREAK => Some(Insn::Ebreak),
        _ => None,
    }
}

// The instruction that a word is, by its opcode.
#[tactic(auto, unfolding(crate::specs::InsnOf::insn_of))]
fn row_of(word: u32) -> Option<Insn>
    ensures { result ≡ insn_of word }
{
    let rd = fields_of(word).rd;
    match word % 128 {
        opcode::LUI => Some(Insn::Lui {
            rd,
            imm: imm_u(word),
        }),
        opcode::AUIPC => Some(Insn::Auipc {
            rd,
            imm: imm_u(word),
        }),
        opcode::JAL => Some(Insn::Jal {
            rd,
            off: imm_j(word).cast_signed(),
        }),
        opcode::JALR => jalr_of(word),
        opcode::BRANCH => branch_of(word),
        opcode::LOAD => load_insn_of(word),
        opcode::STORE => store_insn_of(word),
        opcode::OP_IMM => imm_insn_of(word),
        opcode::OP => op_insn_of(word),
        opcode::FENCE => fence_of(word),
        opcode::SYSTEM => system_of(word),
        _ => None,
    }
}

/// The instruction that a word is.
///
/// `None` exactly where the word is no row of RV32I's table. RISC-V Unprivileged ISA 20191213, chapter 24.
pub fn decode(word: u32) -> Option<Insn>
    ensures some { IfSome result (λ insn. IsWord insn word) }
    ensures only { (insn : Insn) → IsWord insn word → result ≡ Some insn }
    ensures same { result ≡ insn_of word }
{
    row_of(word)
}
