//! The opcodes of RV32I, bits 0 to 6 of a word (RISC-V Unprivileged ISA 20191213, table 24.1).

/// `lui`
pub const LUI: u32 = 0b011_0111;
/// `auipc`
pub const AUIPC: u32 = 0b001_0111;
/// `jal`
pub const JAL: u32 = 0b110_1111;
/// `jalr`
pub const JALR: u32 = 0b110_0111;
/// The conditional branches.
pub const BRANCH: u32 = 0b110_0011;
/// The loads.
pub const LOAD: u32 = 0b000_0011;
/// The stores.
pub const STORE: u32 = 0b010_0011;
/// The operations on a register and an immediate.
pub const OP_IMM: u32 = 0b001_0011;
/// The operations on two registers.
pub const OP: u32 = 0b011_0011;
/// `fence`
pub const FENCE: u32 = 0b000_1111;
/// `ecall` and `ebreak`
pub const SYSTEM: u32 = 0b111_0011;

/// The whole word of `ecall`.
pub const ECALL: u32 = 0x0000_0073;
/// The whole word of `ebreak`.
pub const EBREAK: u32 = 0x0010_0073;
