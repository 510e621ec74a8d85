//! What a line of a source says.

use crate::register::Register;
use cfi_values::Items;
use elf_read::Name;
use rv_insn::{Cond, ImmOp, LoadKind, Op, StoreKind};

/// An immediate of 12 bits: a number that is not looked at yet, or the low part of where a name stands.
#[derive(Drop)]
pub enum Low {
    /// A number from -2^31 to 2^32 - 1.
    Number(i64),
    /// `%lo` of a name.
    Lo(Name),
    /// `%pcrel_lo` of the label of an `auipc`.
    PcrelLo(Name),
}

/// An immediate of 20 bits: a number that is not looked at yet, or the high part of where a name stands.
#[derive(Drop)]
pub enum High {
    /// A number from -2^31 to 2^32 - 1.
    Number(i64),
    /// `%hi` of a name.
    Hi(Name),
    /// `%pcrel_hi` of a name.
    PcrelHi(Name),
}

/// Where a jump or a branch leads.
#[derive(Drop)]
pub enum Target {
    /// To a name.
    Name(Name),
    /// So many bytes from the instruction, from -(2^32 - 1) to 2^32 - 1.
    Offset(i64),
}

/// What a word of text or data holds.
#[derive(Drop)]
pub enum Datum {
    /// A number from -2^31 to 2^32 - 1.
    Number(i64),
    /// The address of a name.
    Name(Name),
}

/// The kind of a type node.
#[derive(Clone, Copy, Debug, PartialEq, Eq)]
pub enum NodeKind {
    /// No value.
    Void,
    /// A whole number: bits, and 1 where it is signed.
    Int,
    /// A real number of so many bytes.
    Real,
    /// A pointer to a node.
    Ptr,
    /// So many of a node.
    Array,
    /// Nodes side by side.
    Struct,
    /// Nodes at one place.
    Union,
    /// A result and parameters.
    Func,
    /// A result and fixed parameters, behind which there may be others.
    VarFunc,
}

/// A statement, its numbers not looked at yet.
#[derive(Drop)]
pub enum Statement {
    /// None.
    Blank,
    /// An operation on two registers.
    Op {
        op: Op,
        rd: Register,
        rs1: Register,
        rs2: Register,
    },
    /// An operation on a register and an immediate; that of a shift is a number.
    OpImm {
        op: ImmOp,
        rd: Register,
        rs1: Register,
        imm: Low,
    },
    /// A load.
    Load {
        kind: LoadKind,
        rd: Register,
        rs1: Register,
        imm: Low,
    },
    /// A store.
    Store {
        kind: StoreKind,
        rs1: Register,
        rs2: Register,
        imm: Low,
    },
    /// A branch.
    Branch {
        cond: Cond,
        rs1: Register,
        rs2: Register,
        target: Target,
    },
    /// `lui`, never with `%pcrel_hi`.
    Lui {
        rd: Register,
        imm: High,
    },
    /// `auipc`.
    Auipc {
        rd: Register,
        imm: High,
    },
    /// `jal`, also as `j`.
    Jal {
        rd: Register,
        target: Target,
    },
    /// `jalr`, also as `jr`.
    Jalr {
        rd: Register,
        rs1: Register,
        imm: Low,
    },
    /// `fence` of everything against everything.
    Fence,
    /// A call of the environment.
    Ecall,
    /// A breakpoint.
    Ebreak,
    /// `li`: a number in a register.
    Li {
        rd: Register,
        number: i64,
    },
    /// `la`: the address of a name in a register.
    La {
        rd: Register,
        name: Name,
    },
    /// `ret`: a jump to x1.
    Ret,
    /// `call` of a name.
    Call(Name),
    /// `tail` to a name.
    Tail(Name),
    /// `.text`: text follows.
    Text,
    /// `.data`: data follow.
    Data,
    /// `.globl`: the name is seen by other objects.
    Globl(Name),
    /// `.word`.
    Word(Datum),
    /// `.zero`: so many zero bytes.
    Zero(i64),
    /// `.node`: the next type node, with as many fields as its kind has.
    Node {
        kind: NodeKind,
        fields: Items<i64>,
    },
    /// `.func`: a function of a node begins here.
    Func {
        name: Name,
        node: i64,
        taken: bool,
    },
    /// `.endfunc`.
    EndFunc,
    /// `.kind call`: the next indirect jump calls functions of a node.
    KindCall(i64),
    /// `.kind tail`: the next indirect jump goes on in functions of a node.
    KindTail(i64),
    /// `.kind return`.
    KindReturn,
    /// `.kind switch`: the next indirect jump goes to one of these labels.
    KindSwitch(Items<Name>),
}
