ghost use Rattle.std.specs.Prelude.{◌≡◌};
ghost use Rattle.rv_alu.specs.Alu.{value_of_op, value_of_imm_op, takes};

use rv_insn::{Cond, ImmOp, Op};

/// What a register operation writes, from its two operands.
///
/// RISC-V Unprivileged ISA 20191213, 2.4: arithmetic is modulo 2^32, shifts go by the low five bits of `y`.
#[inline(always)]
pub fn op_value(op: Op, x: u32, y: u32) -> u32
    ensures { result ≡ value_of_op op x y }
{
    match op {
        Op::Add => x.wrapping_add(y),
        Op::Sub => x.wrapping_sub(y),
        Op::Sll => x.wrapping_shl(y),
        Op::Slt => u32::from(x.cast_signed() < y.cast_signed()),
        Op::Sltu => u32::from(x < y),
        Op::Xor => x ^ y,
        Op::Srl => x.wrapping_shr(y),
        Op::Sra => x.cast_signed().wrapping_shr(y).cast_unsigned(),
        Op::Or => x | y,
        Op::And => x & y,
    }
}

/// What an operation with an immediate writes.
///
/// `y` is the immediate as a word: sign-extended, or the shift's amount.
#[inline(always)]
pub fn imm_op_value(op: ImmOp, x: u32, y: u32) -> u32
    ensures { result ≡ value_of_imm_op op x y }
{
    match op {
        ImmOp::Addi => op_value(Op::Add, x, y),
        ImmOp::Slli => op_value(Op::Sll, x, y),
        ImmOp::Slti => op_value(Op::Slt, x, y),
        ImmOp::Sltiu => op_value(Op::Sltu, x, y),
        ImmOp::Xori => op_value(Op::Xor, x, y),
        ImmOp::Srli => op_value(Op::Srl, x, y),
        ImmOp::Srai => op_value(Op::Sra, x, y),
        ImmOp::Ori => op_value(Op::Or, x, y),
        ImmOp::Andi => op_value(Op::And, x, y),
    }
}

/// Whether a conditional branch goes to its target.
///
/// RISC-V Unprivileged ISA 20191213, 2.5: BLT and BGE compare as signed, BLTU and BGEU as unsigned.
#[inline(always)]
pub fn is_taken(cond: Cond, x: u32, y: u32) -> bool
    ensures { result ≡ takes cond x y }
{
    match cond {
        Cond::Beq => x == y,
        Cond::Bne => x != y,
        Cond::Blt => x.cast_signed() < y.cast_signed(),
        Cond::Bge => x.cast_signed() >= y.cast_signed(),
        Cond::Bltu => x < y,
        Cond::Bgeu => x >= y,
    }
}
