/// A condition of a branch, by funct3 (RISC-V Unprivileged ISA 20191213, 2.5).
#[derive(Clone, Copy, Debug, PartialEq, Eq)]
pub enum Cond {
    /// Equal.
    Beq,
    /// Not equal.
    Bne,
    /// Below, as signed numbers.
    Blt,
    /// Not below, as signed numbers.
    Bge,
    /// Below, as unsigned numbers.
    Bltu,
    /// Not below, as unsigned numbers.
    Bgeu,
}

/// What a load reads, by funct3 (RISC-V Unprivileged ISA 20191213, 2.6).
#[derive(Clone, Copy, Debug, PartialEq, Eq)]
pub enum LoadKind {
    /// A byte, its sign extended.
    Lb,
    /// A halfword, its sign extended.
    Lh,
    /// A word.
    Lw,
    /// A byte, extended with zero.
    Lbu,
    /// A halfword, extended with zero.
    Lhu,
}

/// What a store writes, by funct3 (RISC-V Unprivileged ISA 20191213, 2.6).
#[derive(Clone, Copy, Debug, PartialEq, Eq)]
pub enum StoreKind {
    /// A byte.
    Sb,
    /// A halfword.
    Sh,
    /// A word.
    Sw,
}

/// An operation on a register and an immediate, by funct3 (RISC-V Unprivileged ISA 20191213, 2.4.1).
#[derive(Clone, Copy, Debug, PartialEq, Eq)]
pub enum ImmOp {
    /// The sum.
    Addi,
    /// A shift to the left.
    Slli,
    /// Whether it is below, as signed numbers.
    Slti,
    /// Whether it is below, as unsigned numbers.
    Sltiu,
    /// Exclusive or.
    Xori,
    /// A shift to the right, with zeros.
    Srli,
    /// A shift to the right, with copies of the sign.
    Srai,
    /// Or.
    Ori,
    /// And.
    Andi,
}

/// An operation on two registers, by funct3 (RISC-V Unprivileged ISA 20191213, 2.4.2).
#[derive(Clone, Copy, Debug, PartialEq, Eq)]
pub enum Op {
    /// The sum.
    Add,
    /// The difference.
    Sub,
    /// A shift to the left.
    Sll,
    /// Whether it is below, as signed numbers.
    Slt,
    /// Whether it is below, as unsigned numbers.
    Sltu,
    /// Exclusive or.
    Xor,
    /// A shift to the right, with zeros.
    Srl,
    /// A shift to the right, with copies of the sign.
    Sra,
    /// Or.
    Or,
    /// And.
    And,
}

/// An instruction of RV32I (RISC-V Unprivileged ISA 20191213, 2).
///
/// Registers are numbers below 32. A signed immediate is the number that its field holds, sign extended; an offset is
/// in bytes from the instruction's own address, and even.
#[derive(Clone, Copy, Debug, PartialEq, Eq)]
pub enum Insn {
    /// `imm`, below 2^20, is bits 12 to 31 of what `rd` gets.
    Lui {
        rd: u32,
        imm: u32,
    },
    /// `imm`, below 2^20, is bits 12 to 31 of what is added to the address of the instruction.
    Auipc {
        rd: u32,
        imm: u32,
    },
    /// A jump, `off` from -2^20 to 2^20 - 2.
    Jal {
        rd: u32,
        off: i32,
    },
    /// A jump to a register and `imm`, from -2048 to 2047.
    Jalr {
        rd: u32,
        rs1: u32,
        imm: i32,
    },
    /// A branch, `off` from -4096 to 4094.
    Branch {
        cond: Cond,
        rs1: u32,
        rs2: u32,
        off: i32,
    },
    /// A load from a register and `imm`, from -2048 to 2047.
    Load {
        kind: LoadKind,
        rd: u32,
        rs1: u32,
        imm: i32,
    },
    /// A store of `rs2` to `rs1` and `imm`, from -2048 to 2047.
    Store {
        kind: StoreKind,
        rs1: u32,
        rs2: u32,
        imm: i32,
    },
    /// An operation on `rs1` and `imm`, from -2048 to 2047; a shift's is from 0 to 31.
    OpImm {
        op: ImmOp,
        rd: u32,
        rs1: u32,
        imm: i32,
    },
    /// An operation on `rs1` and `rs2`.
    Op {
        op: Op,
        rd: u32,
        rs1: u32,
        rs2: u32,
    },
    /// A fence; `fields` is its word with the opcode and funct3 cleared.
    Fence {
        fields: u32,
    },
    /// A call of the environment.
    Ecall,
    /// A breakpoint.
    Ebreak,
}
