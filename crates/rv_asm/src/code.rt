//! The words of a statement where it stands.

ghost use Rattle.std.specs.Prelude.{◌≡◌, ◌<◌, pos};
ghost use Rattle.rv_asm.specs.Words.{offset_of, pair, words_of};
ghost use Rattle.rv_insn.specs.declared.insn.ImmOp.TheVariants.{Addi};
ghost use Rattle.rv_insn.specs.declared.insn.Insn.TheVariants as insns;

use crate::forms::{
    auipc_words, branch_words, imm_op_words, jal_words, jalr_words, load_words, lui_words,
    op_words, store_words,
};
use crate::words::{Words, li_words, low_word, one, pair};
use rv_insn::{ImmOp, Insn};
use rv_line::{Datum, Register, Statement, Target};
use rv_names::Names;
use rv_text::FULL_FENCE;

// How far a jump or a branch at this place leads. What a relocation fills in is 0.
fn offset_of(names: &Names, at: u32, target: &Target) -> i64
    ensures { result ≡ offset_of names.now at target.now }
{
    match target {
        Target::Offset(number) => *number,
        Target::Name(name) => match names.text_value(name.as_str()) {
            Some(value) => i64::from(value) - i64::from(at),
            None => 0,
        },
    }
}

// `la`: the address of a name in a register, filled in by relocations.
fn la_words(rd: Register) -> Words
    ensures { result ≡ pair rd (insns.OpImm Addi rd rd (pos 0)) }
{
    let rd = rd.number();
    pair(
        rd,
        Insn::OpImm {
            op: ImmOp::Addi,
            rd,
            rs1: rd,
            imm: 0,
        },
    )
}

// A jump to another object by a register, filled in by a relocation.
fn far_words(rd: u32, register: u32) -> Words
    requires rd { rd < 32 }
    requires register { register < 32 }
    ensures { result ≡ pair register (insns.Jalr rd register (pos 0)) }
{
    pair(
        register,
        Insn::Jalr {
            rd,
            rs1: register,
            imm: 0,
        },
    )
}

/// The words of a statement that stands at this place of the text, in bytes from its start.
///
/// What a relocation fills in is 0. `None` where a number is outside its field, and for statements without words.
pub fn words_of(names: &Names, at: u32, statement: &Statement) -> Option<Words>
    ensures { result ≡ words_of names.now at statement.now }
{
    match statement {
        Statement::Op { op, rd, rs1, rs2 } => Some(op_words(*op, *rd, *rs1, *rs2)),
        Statement::OpImm { op, rd, rs1, imm } => imm_op_words(*op, *rd, *rs1, imm),
        Statement::Load { kind, rd, rs1, imm } => load_words(*kind, *rd, *rs1, imm),
        Statement::Store {
            kind,
            rs1,
            rs2,
            imm,
        } => store_words(*kind, *rs1, *rs2, imm),
        Statement::Branch {
            cond,
            rs1,
            rs2,
            target,
        } => branch_words(*cond, *rs1, *rs2, offset_of(names, at, target)),
        Statement::Lui { rd, imm } => lui_words(*rd, imm),
        Statement::Auipc { rd, imm } => auipc_words(*rd, imm),
        Statement::Jal { rd, target } => jal_words(*rd, offset_of(names, at, target)),
        Statement::Jalr { rd, rs1, imm } => jalr_words(*rd, *rs1, imm),
        Statement::Fence => Some(Words::One(FULL_FENCE)),
        Statement::Ecall => Some(one(Insn::Ecall)),
        Statement::Ebreak => Some(one(Insn::Ebreak)),
        Statement::Li { rd, number } => Some(li_words(*rd, low_word(*number))),
        Statement::La { rd, .. } => Some(la_words(*rd)),
        Statement::Ret => Some(one(Insn::Jalr {
            rd: 0,
            rs1: 1,
            imm: 0,
        })),
        Statement::Call(_) => Some(far_words(1, 1)),
        Statement::Tail(_) => Some(far_words(0, 6)),
        Statement::Word(Datum::Number(number)) => Some(Words::One(low_word(*number))),
        _ => None,
    }
}
