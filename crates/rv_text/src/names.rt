//! The mnemonics (RISC-V Unprivileged ISA 20191213, chapter 24).

ghost use Rattle.std.specs.Prelude.{◌≡◌};
ghost use Rattle.rv_text.specs.Names.{cond_name, load_name, store_name, imm_op_name, op_name};

use rv_insn::{Cond, ImmOp, LoadKind, Op, StoreKind};

/// The mnemonic of a branch.
pub fn cond_name(cond: Cond) -> &'static str
    ensures { result.now ≡ cond_name cond }
{
    match cond {
        Cond::Beq => "beq",
        Cond::Bne => "bne",
        Cond::Blt => "blt",
        Cond::Bge => "bge",
        Cond::Bltu => "bltu",
        Cond::Bgeu => "bgeu",
    }
}

/// The mnemonic of a load.
pub fn load_name(kind: LoadKind) -> &'static str
    ensures { result.now ≡ load_name kind }
{
    match kind {
        LoadKind::Lb => "lb",
        LoadKind::Lh => "lh",
        LoadKind::Lw => "lw",
        LoadKind::Lbu => "lbu",
        LoadKind::Lhu => "lhu",
    }
}

/// The mnemonic of a store.
pub fn store_name(kind: StoreKind) -> &'static str
    ensures { result.now ≡ store_name kind }
{
    match kind {
        StoreKind::Sb => "sb",
        StoreKind::Sh => "sh",
        StoreKind::Sw => "sw",
    }
}

/// The mnemonic of an operation on a register and an immediate.
pub fn imm_op_name(op: ImmOp) -> &'static str
    ensures { result.now ≡ imm_op_name op }
{
    match op {
        ImmOp::Addi => "addi",
        ImmOp::Slli => "slli",
        ImmOp::Slti => "slti",
        ImmOp::Sltiu => "sltiu",
        ImmOp::Xori => "xori",
        ImmOp::Srli => "srli",
        ImmOp::Srai => "srai",
        ImmOp::Ori => "ori",
        ImmOp::Andi => "andi",
    }
}

/// The mnemonic of an operation on two registers.
pub fn op_name(op: Op) -> &'static str
    ensures { result.now ≡ op_name op }
{
    match op {
        Op::Add => "add",
        Op::Sub => "sub",
        Op::Sll => "sll",
        Op::Slt => "slt",
        Op::Sltu => "sltu",
        Op::Xor => "xor",
        Op::Srl => "srl",
        Op::Sra => "sra",
        Op::Or => "or",
        Op::And => "and",
    }
}
