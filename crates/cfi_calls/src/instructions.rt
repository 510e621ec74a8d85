//! What a machine reads of instruction words. Words: GNU as 2.40, `-march=rv32i`.

use rv_insn::fields::{fields_of, imm_b, imm_i, imm_j, imm_s, imm_u, upper};
use rv_insn::laws::{decode_encoded, encode_decoded, meaning_is_exact, one_meaning};
use rv_insn::{Insn, encode};

// srai x5,x6,0x1f
fn fields() -> bool {
    let f = fields_of(0x41f35293);
    f.opcode == 0x13 && f.rd == 5 && f.funct3 == 5 && f.rs1 == 6 && f.rs2 == 31 && f.funct7 == 32
}

// sltiu x5,x6,-1; sw x31,-2048(x0); bne x3,x4,.-4096; jal x1,.+1048574
fn offsets() -> bool {
    imm_i(0xfff33293) == 0xffffffff
        && imm_s(0x81f02023) == 0xfffff800
        && imm_b(0x80419063) == 0xfffff000
        && imm_j(0x7ffff0ef) == 1048574
}

// auipc x5,0x12345
fn upper_bits() -> bool {
    imm_u(0x12345297) == 0x12345 && upper(0x12345297) == 0x12345000
}

// ebreak, and ecall both ways
fn spelled() -> bool {
    encode(&Insn::Ebreak) == 0x00100073
        && decode_encoded(&Insn::Ecall) == Some(Insn::Ecall)
        && encode_decoded(0x00000073) == Some(0x00000073)
}

/// Fields and immediates of words, and words of instructions.
pub fn readers() -> bool {
    one_meaning();
    meaning_is_exact();
    fields() && offsets() && upper_bits() && spelled()
}
