//! Instructions with another immediate.

ghost use Rattle.std.specs.Prelude.{◌≡◌, ◌^◌, true, IfSome};
ghost use Rattle.rv_insn.specs.Insn.{InRange};
ghost use Rattle.rv_reloc.specs.Formula.{signed_of, is_reach};
ghost use Rattle.rv_insn.specs.Fields.{high_of, low_of};
ghost use Rattle.rv_reloc.specs.Form.{with_branch, with_jal, with_lui, with_auipc, with_jalr, with_low_i, with_low_s, fits, with_number};

use crate::formula::is_reach;
use crate::table::Form;
use rv_insn::fields::{high_of, low_of};
use rv_insn::{ImmOp, Insn};

// The conditional branch with the number as its offset.
fn with_branch(insn: Insn, number: u32) -> Option<Insn>
    requires range { InRange insn }
    requires fits { is_reach (2 ^ 12) number ≡ true }
    ensures insn { result ≡ with_branch (signed_of number) insn }
    ensures range { IfSome result InRange }
{
    match insn {
        Insn::Branch { cond, rs1, rs2, .. } => {
            let off = number.cast_signed();
            Some(Insn::Branch {
                cond,
                rs1,
                rs2,
                off,
            })
        }
        _ => None,
    }
}

// JAL with the number as its offset.
fn with_jal(insn: Insn, number: u32) -> Option<Insn>
    requires range { InRange insn }
    requires fits { is_reach (2 ^ 20) number ≡ true }
    ensures insn { result ≡ with_jal (signed_of number) insn }
    ensures range { IfSome result InRange }
{
    match insn {
        Insn::Jal { rd, .. } => {
            let off = number.cast_signed();
            Some(Insn::Jal { rd, off })
        }
        _ => None,
    }
}

// LUI with the high part of the number.
fn with_lui(insn: Insn, number: u32) -> Option<Insn>
    requires range { InRange insn }
    ensures insn { result ≡ with_lui (high_of number) insn }
    ensures range { IfSome result InRange }
{
    match insn {
        Insn::Lui { rd, .. } => Some(Insn::Lui {
            rd,
            imm: high_of(number),
        }),
        _ => None,
    }
}

// AUIPC with the high part of the number.
fn with_auipc(insn: Insn, number: u32) -> Option<Insn>
    requires range { InRange insn }
    ensures insn { result ≡ with_auipc (high_of number) insn }
    ensures range { IfSome result InRange }
{
    match insn {
        Insn::Auipc { rd, .. } => Some(Insn::Auipc {
            rd,
            imm: high_of(number),
        }),
        _ => None,
    }
}

// JALR with the low part of the number.
fn with_jalr(insn: Insn, number: u32) -> Option<Insn>
    requires range { InRange insn }
    ensures insn { result ≡ with_jalr (low_of number) insn }
    ensures range { IfSome result InRange }
{
    match insn {
        Insn::Jalr { rd, rs1, .. } => Some(Insn::Jalr {
            rd,
            rs1,
            imm: low_of(number),
        }),
        _ => None,
    }
}

// A load, ADDI or JALR with the low part of the number.
fn with_low_i(insn: Insn, number: u32) -> Option<Insn>
    requires range { InRange insn }
    ensures insn { result ≡ with_low_i (low_of number) insn }
    ensures range { IfSome result InRange }
{
    let imm = low_of(number);
    match insn {
        Insn::Load { kind, rd, rs1, .. } => Some(Insn::Load { kind, rd, rs1, imm }),
        Insn::OpImm { op, rd, rs1, .. } => match op {
            ImmOp::Addi => Some(Insn::OpImm { op, rd, rs1, imm }),
            _ => None,
        },
        Insn::Jalr { rd, rs1, .. } => Some(Insn::Jalr { rd, rs1, imm }),
        _ => None,
    }
}

// A store with the low part of the number.
fn with_low_s(insn: Insn, number: u32) -> Option<Insn>
    requires range { InRange insn }
    ensures insn { result ≡ with_low_s (low_of number) insn }
    ensures range { IfSome result InRange }
{
    match insn {
        Insn::Store { kind, rs1, rs2, .. } => Some(Insn::Store {
            kind,
            rs1,
            rs2,
            imm: low_of(number),
        }),
        _ => None,
    }
}

/// Whether a number fits into the field of a form.
pub fn fits(form: Form, number: u32) -> bool
    ensures { result ≡ fits form number }
{
    match form {
        Form::Branch => is_reach(1 << 12, number),
        Form::Jal => is_reach(1 << 20, number),
        _ => true,
    }
}

/// The instruction with a number in the field of a form, where it has that form.
#[tactic(auto, unfolding(crate::specs::Form::with_number))]
pub fn with_number(form: Form, number: u32, insn: Insn) -> Option<Insn>
    requires range { InRange insn }
    requires fits { fits form number ≡ true }
    ensures insn { result ≡ with_number form number insn }
    ensures range { IfSome result InRange }
{
    match form {
        Form::Branch => with_branch(insn, number),
        Form::Jal => with_jal(insn, number),
        Form::Lui => with_lui(insn, number),
        Form::Auipc => with_auipc(insn, number),
        Form::Jalr => with_jalr(insn, number),
        Form::LowI => with_low_i(insn, number),
        Form::LowS => with_low_s(insn, number),
    }
}
