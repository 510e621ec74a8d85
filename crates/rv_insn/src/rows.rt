//! The rows that share an opcode, each way (RISC-V Unprivileged ISA 20191213, chapter 24).

ghost use Rattle.std.specs.Prelude.{◌≡◌, ◌^◌, ◌<◌};
ghost use Rattle.rv_insn.specs.Rows.{cond_funct3, load_funct3, store_funct3, imm_funct3, op_funct3, op_funct7};
ghost use Rattle.rv_insn.specs.InsnOf.{cond_at, load_at, store_at, imm_op_at, op_at};

use crate::insn::{Cond, ImmOp, LoadKind, Op, StoreKind};

/// funct3 of a branch.
pub fn cond_funct3(cond: Cond) -> u32
    ensures row { result ≡ cond_funct3 cond }
    ensures fits { result < 8 }
{
    match cond {
        Cond::Beq => 0,
        Cond::Bne => 1,
        Cond::Blt => 4,
        Cond::Bge => 5,
        Cond::Bltu => 6,
        Cond::Bgeu => 7,
    }
}

/// The condition of a branch's row.
#[inline(always)]
pub fn cond_of(funct3: u32) -> Option<Cond>
    ensures { result ≡ cond_at funct3 }
{
    match funct3 {
        0 => Some(Cond::Beq),
        1 => Some(Cond::Bne),
        4 => Some(Cond::Blt),
        5 => Some(Cond::Bge),
        6 => Some(Cond::Bltu),
        7 => Some(Cond::Bgeu),
        _ => None,
    }
}

/// funct3 of a load.
pub fn load_funct3(kind: LoadKind) -> u32
    ensures row { result ≡ load_funct3 kind }
    ensures fits { result < 8 }
{
    match kind {
        LoadKind::Lb => 0,
        LoadKind::Lh => 1,
        LoadKind::Lw => 2,
        LoadKind::Lbu => 4,
        LoadKind::Lhu => 5,
    }
}

/// The kind of a load's row.
#[inline(always)]
pub fn load_of(funct3: u32) -> Option<LoadKind>
    ensures { result ≡ load_at funct3 }
{
    match funct3 {
        0 => Some(LoadKind::Lb),
        1 => Some(LoadKind::Lh),
        2 => Some(LoadKind::Lw),
        4 => Some(LoadKind::Lbu),
        5 => Some(LoadKind::Lhu),
        _ => None,
    }
}

/// funct3 of a store.
pub fn store_funct3(kind: StoreKind) -> u32
    ensures row { result ≡ store_funct3 kind }
    ensures fits { result < 8 }
{
    match kind {
        StoreKind::Sb => 0,
        StoreKind::Sh => 1,
        StoreKind::Sw => 2,
    }
}

/// The kind of a store's row.
#[inline(always)]
pub fn store_of(funct3: u32) -> Option<StoreKind>
    ensures { result ≡ store_at funct3 }
{
    match funct3 {
        0 => Some(StoreKind::Sb),
        1 => Some(StoreKind::Sh),
        2 => Some(StoreKind::Sw),
        _ => None,
    }
}

/// funct3 of an operation with an immediate.
pub fn imm_funct3(op: ImmOp) -> u32
    ensures row { result ≡ imm_funct3 op }
    ensures fits { result < 8 }
{
    match op {
        ImmOp::Addi => 0,
        ImmOp::Slli => 1,
        ImmOp::Slti => 2,
        ImmOp::Sltiu => 3,
        ImmOp::Xori => 4,
        ImmOp::Srli | ImmOp::Srai => 5,
        ImmOp::Ori => 6,
        ImmOp::Andi => 7,
    }
}

/// The operation of a row with an immediate; only a shift looks at funct7.
#[inline(always)]
pub fn imm_op_of(funct3: u32, funct7: u32) -> Option<ImmOp>
    ensures { result ≡ imm_op_at funct3 funct7 }
{
    match (funct3, funct7) {
        (0, _) => Some(ImmOp::Addi),
        (1, 0) => Some(ImmOp::Slli),
        (2, _) => Some(ImmOp::Slti),
        (3, _) => Some(ImmOp::Sltiu),
        (4, _) => Some(ImmOp::Xori),
        (5, 0) => Some(ImmOp::Srli),
        (5, 32) => Some(ImmOp::Srai),
        (6, _) => Some(ImmOp::Ori),
        (7, _) => Some(ImmOp::Andi),
        _ => None,
    }
}

/// funct3 of an operation with two registers.
pub fn op_funct3(op: Op) -> u32
    ensures row { result ≡ op_funct3 op }
    ensures fits { result < 8 }
{
    match op {
        Op::Add | Op::Sub => 0,
        Op::Sll => 1,
        Op::Slt => 2,
        Op::Sltu => 3,
        Op::Xor => 4,
        Op::Srl | Op::Sra => 5,
        Op::Or => 6,
        Op::And => 7,
    }
}

/// funct7 of an operation with two registers.
pub fn op_funct7(op: Op) -> u32
    ensures row { result ≡ op_funct7 op }
    ensures fits { result < 2 ^ 7 }
{
    match op {
        Op::Sub | Op::Sra => 32,
        _ => 0,
    }
}

/// The operation of a row with two registers.
#[inline(always)]
pub fn op_of(funct3: u32, funct7: u32) -> Option<Op>
    ensures { result ≡ op_at funct3 funct7 }
{
    match (funct3, funct7) {
        (0, 0) => Some(Op::Add),
        (0, 32) => Some(Op::Sub),
        (1, 0) => Some(Op::Sll),
        (2, 0) => Some(Op::Slt),
        (3, 0) => Some(Op::Sltu),
        (4, 0) => Some(Op::Xor),
        (5, 0) => Some(Op::Srl),
        (5, 32) => Some(Op::Sra),
        (6, 0) => Some(Op::Or),
        (7, 0) => Some(Op::And),
        _ => None,
    }
}
