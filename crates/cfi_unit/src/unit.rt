use rv_insn::{Cond, Insn, LoadKind, StoreKind};

/// A guest's own instructions name x0 to x27 alone; x28 to x31 belong to the instrumentation.
pub const FREE_REGISTERS: u32 = 28;

/// A unit of code: what a guest's program counter never stands inside.
///
/// Registers are numbers below `FREE_REGISTERS`. Offsets are in bytes from the unit's own address, and even.
#[derive(Clone, Copy, Debug, PartialEq, Eq)]
pub enum Unit {
    /// An instruction on registers alone.
    Plain(Insn),
    /// A masked load of `rd` from `rs1` and `imm`, from -2048 to 2047, brought into private data.
    Load {
        kind: LoadKind,
        rd: u32,
        rs1: u32,
        imm: i32,
    },
    /// A masked store of `rs2` to `rs1` and `imm`, from -2048 to 2047, brought into private data.
    Store {
        kind: StoreKind,
        rs1: u32,
        rs2: u32,
        imm: i32,
    },
    /// A conditional branch, `off` from -4096 to 4094.
    Branch {
        cond: Cond,
        rs1: u32,
        rs2: u32,
        off: i32,
    },
    /// A direct jump, `off` from -2^20 to 2^20 - 2. One that links puts the address after it into x1.
    Jump {
        link: bool,
        off: i32,
    },
    /// A jump to `rs1` and `imm`, from -2048 to 2047, where the IDs of the branch's slot and of the target agree. One
    /// that links puts the address after it into x1.
    Check {
        link: bool,
        rs1: u32,
        imm: i32,
        slot: u32,
    },
    /// A call of the environment.
    Service,
}
