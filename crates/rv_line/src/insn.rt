//! The instructions of a source, as the manual writes them.

ghost use Rattle.std.specs.Prelude.{◌≡◌, IfOk};
ghost use Rattle.rv_line.specs.declared.statement.Statement.TheVariants as statements;
ghost use Rattle.rv_line.specs.Operand.{operands_in};
ghost use Rattle.rv_line.specs.Statement.{takes, imm_op_by, lui_by, alone, insn_in};

use crate::immediate::Place;
use crate::keyword::Mnemonic;
use crate::operand::{has_none, three_of, two_of};
use crate::register::Register;
use crate::statement::{High, Low, Statement, Target};
use rv_insn::{Cond, ImmOp, LoadKind, StoreKind};
use std::alloc::{AllocError, Global};

// Whether an operation takes this immediate: a shift takes a number alone.
fn takes(op: ImmOp, imm: &Low) -> bool
    ensures { result ≡ takes op imm.now }
{
    match imm {
        Low::Number(_) => true,
        Low::Lo(_) | Low::PcrelLo(_) => !matches!(op, ImmOp::Slli | ImmOp::Srli | ImmOp::Srai),
    }
}

// An operation on a register and an immediate, if it takes this one.
fn imm_op_by(op: ImmOp, rd: Register, rs1: Register, imm: Low) -> Option<Statement>
    ensures { result ≡ imm_op_by op rd rs1 imm }
{
    if takes(op, &imm) {
        Some(Statement::OpImm { op, rd, rs1, imm })
    } else {
        None
    }
}

// `lui`, which has no `%pcrel_hi`.
fn lui_by(rd: Register, imm: High) -> Option<Statement>
    ensures { result ≡ lui_by rd imm }
{
    match imm {
        High::PcrelHi(_) => None,
        _ => Some(Statement::Lui { rd, imm }),
    }
}

fn load(kind: LoadKind, rd: Register, place: Place) -> Statement
    ensures { result ≡ statements.Load kind rd place.base place.imm }
{
    let Place { imm, base: rs1 } = place;
    Statement::Load { kind, rd, rs1, imm }
}

fn store(kind: StoreKind, rs2: Register, place: Place) -> Statement
    ensures { result ≡ statements.Store kind place.base rs2 place.imm }
{
    let Place { imm, base: rs1 } = place;
    Statement::Store {
        kind,
        rs1,
        rs2,
        imm,
    }
}

fn branch(cond: Cond, rs1: Register, rs2: Register, target: Target) -> Statement
    ensures { result ≡ statements.Branch cond rs1 rs2 target }
{
    Statement::Branch {
        cond,
        rs1,
        rs2,
        target,
    }
}

fn jalr(rd: Register, place: Place) -> Statement
    ensures { result ≡ statements.Jalr rd place.base place.imm }
{
    let Place { imm, base: rs1 } = place;
    Statement::Jalr { rd, rs1, imm }
}

/// A statement without operands.
pub fn alone(statement: Statement, rest: &[u8]) -> Option<Statement>
    ensures { result ≡ alone statement (operands_in rest.now) }
{
    has_none(rest).then_some(statement)
}

/// The instruction of a mnemonic and its operands.
pub fn insn_of(
    alloc: Global,
    mnemonic: Mnemonic,
    rest: &[u8],
) -> Result<Option<Statement>, AllocError>
    ensures { IfOk result (λ found. found ≡ insn_in mnemonic (operands_in rest.now)) }
{
    let found = match mnemonic {
        Mnemonic::Op(op) => {
            let operands = three_of(alloc, rest)?;
            operands.map(|(rd, rs1, rs2)| Statement::Op { op, rd, rs1, rs2 })
        }
        Mnemonic::OpImm(op) => {
            let operands = three_of(alloc, rest)?;
            operands.and_then(|(rd, rs1, imm)| imm_op_by(op, rd, rs1, imm))
        }
        Mnemonic::Load(kind) => {
            let operands = two_of::<Register, Place>(alloc, rest)?;
            operands.map(|(rd, place)| load(kind, rd, place))
        }
        Mnemonic::Store(kind) => {
            let operands = two_of::<Register, Place>(alloc, rest)?;
            operands.map(|(rs2, place)| store(kind, rs2, place))
        }
        Mnemonic::Branch(cond) => {
            let operands = three_of(alloc, rest)?;
            operands.map(|(rs1, rs2, target)| branch(cond, rs1, rs2, target))
        }
        Mnemonic::Lui => two_of(alloc, rest)?.and_then(|(rd, imm)| lui_by(rd, imm)),
        Mnemonic::Auipc => two_of(alloc, rest)?.map(|(rd, imm)| Statement::Auipc { rd, imm }),
        Mnemonic::Jal => two_of(alloc, rest)?.map(|(rd, target)| Statement::Jal { rd, target }),
        Mnemonic::Jalr => two_of(alloc, rest)?.map(|(rd, place)| jalr(rd, place)),
        Mnemonic::Fence => alone(Statement::Fence, rest),
        Mnemonic::Ecall => alone(Statement::Ecall, rest),
        Mnemonic::Ebreak => alone(Statement::Ebreak, rest),
    };
    Ok(found)
}
