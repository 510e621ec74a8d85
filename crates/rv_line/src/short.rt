//! The short forms.

ghost use Rattle.std.specs.Prelude.{◌≡◌, IfOk, pos};
ghost use Rattle.rv_insn.specs.declared.insn.ImmOp.TheVariants.{Addi};
ghost use Rattle.rv_line.specs.declared.keyword.Short.TheVariants as shorts;
ghost use Rattle.rv_line.specs.declared.statement.Low.TheVariants as lows;
ghost use Rattle.rv_line.specs.declared.statement.Statement.TheVariants as statements;
ghost use Rattle.rv_line.specs.Operand.{operands_in};
ghost use Rattle.rv_line.specs.Statement.{short_in};

use crate::insn::alone;
use crate::keyword::Short;
use crate::operand::{has_none, one_of, two_of};
use crate::register::Register;
use crate::statement::{Low, Statement};
use rv_insn::ImmOp;
use std::alloc::{AllocError, Global};

// `addi rd,rs1,0`.
fn copy(rd: Register, rs1: Register) -> Statement
    ensures { result ≡ statements.OpImm Addi rd rs1 (lows.Number (pos 0)) }
{
    Statement::OpImm {
        op: ImmOp::Addi,
        rd,
        rs1,
        imm: Low::Number(0),
    }
}

// `jalr x0,0(rs1)`.
fn jump_by(rs1: Register) -> Statement
    ensures { result ≡ statements.Jalr 0 rs1 (lows.Number (pos 0)) }
{
    Statement::Jalr {
        rd: Register::new(0),
        rs1,
        imm: Low::Number(0),
    }
}

// `nop` stands for `addi x0,x0,0`.
fn nop(rest: &[u8]) -> Option<Statement>
    ensures { result ≡ short_in shorts.Nop (operands_in rest.now) }
{
    let zero = Register::new(0);
    has_none(rest).then_some(copy(zero, zero))
}

// `mv rd,rs` stands for `addi rd,rs,0`.
fn mv(alloc: Global, rest: &[u8]) -> Result<Option<Statement>, AllocError>
    ensures { IfOk result (λ found. found ≡ short_in shorts.Mv (operands_in rest.now)) }
{
    match two_of(alloc, rest)? {
        Some((rd, rs1)) => Ok(Some(copy(rd, rs1))),
        None => Ok(None),
    }
}

// `j T` stands for `jal x0,T`.
fn j(alloc: Global, rest: &[u8]) -> Result<Option<Statement>, AllocError>
    ensures { IfOk result (λ found. found ≡ short_in shorts.J (operands_in rest.now)) }
{
    match one_of(alloc, rest)? {
        Some(target) => Ok(Some(Statement::Jal {
            rd: Register::new(0),
            target,
        })),
        None => Ok(None),
    }
}

/// The statement of a short form and its operands.
pub fn short_of(alloc: Global, short: Short, rest: &[u8]) -> Result<Option<Statement>, AllocError>
    ensures { IfOk result (λ found. found ≡ short_in short (operands_in rest.now)) }
{
    match short {
        Short::Nop => Ok(nop(rest)),
        Short::Mv => mv(alloc, rest),
        Short::J => j(alloc, rest),
        Short::Jr => Ok(one_of(alloc, rest)?.map(jump_by)),
        Short::Li => Ok(two_of(alloc, rest)?.map(|(rd, number)| Statement::Li { rd, number })),
        Short::La => Ok(two_of(alloc, rest)?.map(|(rd, name)| Statement::La { rd, name })),
        Short::Ret => Ok(alone(Statement::Ret, rest)),
        Short::Call => Ok(one_of(alloc, rest)?.map(Statement::Call)),
        Short::Tail => Ok(one_of(alloc, rest)?.map(Statement::Tail)),
    }
}
