ghost use Rattle.std.specs.Prelude.{◌≡◌, ◌^◌, ◌<◌, ℤ};
ghost use Rattle.rv_insn.specs.Rows.{cond_funct3, load_funct3, store_funct3, imm_funct3, imm_funct7, op_funct3, op_funct7};
ghost use Rattle.rv_insn.specs.Word.{IsSigned, IsEven, word_by, i_word, s_word, b_word, u_word, j_word};
ghost use Rattle.rv_insn.specs.Insn.{InRange, IsImmOf, imm_word, word_of};

use crate::insn::{ImmOp, Insn};
use crate::opcode;
use crate::rows::{cond_funct3, imm_funct3, load_funct3, op_funct3, op_funct7, store_funct3};

fn word_by(opcode: u32, rd: u32, funct3: u32, rs1: u32, rs2: u32, funct7: u32) -> u32
    requires opcode_fits { opcode < 2 ^ 7 }
    requires rd_fits { rd < 32 }
    requires funct3_fits { funct3 < 8 }
    requires rs1_fits { rs1 < 32 }
    requires rs2_fits { rs2 < 32 }
    requires funct7_fits { funct7 < 2 ^ 7 }
    ensures { result ≡ word_by opcode rd funct3 rs1 rs2 funct7 }
{
    opcode + (rd << 7) + (funct3 << 12) + (rs1 << 15) + (rs2 << 20) + (funct7 << 25)
}

fn i_word(opcode: u32, rd: u32, funct3: u32, rs1: u32, imm: i32) -> u32
    requires opcode_fits { opcode < 2 ^ 7 }
    requires rd_fits { rd < 32 }
    requires funct3_fits { funct3 < 8 }
    requires rs1_fits { rs1 < 32 }
    requires imm_fits { IsSigned (2 ^ 11) imm }
    ensures { result ≡ i_word opcode rd funct3 rs1 imm }
{
    let n = imm.cast_unsigned() % 4096;
    word_by(opcode, rd, funct3, rs1, n % 32, n >> 5)
}

fn s_word(opcode: u32, funct3: u32, rs1: u32, rs2: u32, imm: i32) -> u32
    requires opcode_fits { opcode < 2 ^ 7 }
    requires funct3_fits { funct3 < 8 }
    requires rs1_fits { rs1 < 32 }
    requires rs2_fits { rs2 < 32 }
    requires imm_fits { IsSigned (2 ^ 11) imm }
    ensures { result ≡ s_word opcode funct3 rs1 rs2 imm }
{
    let n = imm.cast_unsigned() % 4096;
    word_by(opcode, n % 32, funct3, rs1, rs2, n >> 5)
}

fn b_word(opcode: u32, funct3: u32, rs1: u32, rs2: u32, off: i32) -> u32
    requires opcode_fits { opcode < 2 ^ 7 }
    requires funct3_fits { funct3 < 8 }
    requires rs1_fits { rs1 < 32 }
    requires rs2_fits { rs2 < 32 }
    requires off_fits { IsSigned (2 ^ 12) off }
    ensures { result ≡ b_word opcode funct3 rs1 rs2 off }
{
    let n = off.cast_unsigned() % 8192;
    let low = (n >> 11) % 2 + 2 * ((n >> 1) % 16);
    let high = (n >> 5) % 64 + 64 * (n >> 12);
    word_by(opcode, low, funct3, rs1, rs2, high)
}

fn u_word(opcode: u32, rd: u32, imm: u32) -> u32
    requires opcode_fits { opcode < 2 ^ 7 }
    requires rd_fits { rd < 32 }
    requires imm_fits { imm < 2 ^ 20 }
    ensures { result ≡ u_word opcode rd imm }
{
    opcode + (rd << 7) + (imm << 12)
}

fn j_word(opcode: u32, rd: u32, off: i32) -> u32
    requires opcode_fits { opcode < 2 ^ 7 }
    requires rd_fits { rd < 32 }
    requires off_fits { IsSigned (2 ^ 20) off }
    ensures { result ≡ j_word opcode rd off }
{
    let n = off.cast_unsigned() % (1 << 21);
    let low = (n >> 12) % 256 + (((n >> 11) % 2) << 8);
    let high = (((n >> 1) % 1024) << 9) + ((n >> 20) << 19);
    u_word(opcode, rd, low + high)
}

fn imm_word(op: ImmOp, rd: u32, rs1: u32, imm: i32) -> u32
    requires rd_fits { rd < 32 }
    requires rs1_fits { rs1 < 32 }
    requires imm_fits { IsImmOf (imm_funct7 op) imm }
    ensures { result ≡ imm_word (imm_funct7 op) rd (imm_funct3 op) rs1 imm }
{
    let funct3 = imm_funct3(op);
    match op {
        ImmOp::Slli | ImmOp::Srli => word_by(
            opcode::OP_IMM,
            rd,
            funct3,
            rs1,
            imm.cast_unsigned(),
            0,
        ),
        ImmOp::Srai => word_by(opcode::OP_IMM, rd, funct3, rs1, imm.cast_unsigned(), 32),
        _ => i_word(opcode::OP_IMM, rd, funct3, rs1, imm),
    }
}

/// The word of an instruction whose fields are in range.
///
/// RISC-V Unprivileged ISA 20191213, chapter 24.
pub fn encode(insn: &Insn) -> u32
    requires { InRange insn.now }
    ensures { result ≡ word_of insn.now }
{
    match *insn {
        Insn::Lui { rd, imm } => u_word(opcode::LUI, rd, imm),
        Insn::Auipc { rd, imm } => u_word(opcode::AUIPC, rd, imm),
        Insn::Jal { rd, off } => j_word(opcode::JAL, rd, off),
        Insn::Jalr { rd, rs1, imm } => i_word(opcode::JALR, rd, 0, rs1, imm),
        Insn::Branch {
            cond,
            rs1,
            rs2,
            off,
        } => b_word(opcode::BRANCH, cond_funct3(cond), rs1, rs2, off),
        Insn::Load { kind, rd, rs1, imm } => i_word(opcode::LOAD, rd, load_funct3(kind), rs1, imm),
        Insn::Store {
            kind,
            rs1,
            rs2,
            imm,
        } => s_word(opcode::STORE, store_funct3(kind), rs1, rs2, imm),
        Insn::OpImm { op, rd, rs1, imm } => imm_word(op, rd, rs1, imm),
        Insn::Op { op, rd, rs1, rs2 } => word_by(
            opcode::OP,
            rd,
            op_funct3(op),
            rs1,
            rs2,
            op_funct7(op),
        ),
        Insn::Fence { fields } => opcode::FENCE + fields,
        Insn::Ecall => opcode::ECALL,
        Insn::Ebreak => opcode::EBREAK,
    }
}
