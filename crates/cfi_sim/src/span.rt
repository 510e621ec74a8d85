//! Where an instruction stands in its unit.

ghost use Rattle.std.specs.Prelude.{◌≡◌};
ghost use Rattle.rv_insn.specs.Insn.{InRange};
ghost use Rattle.std.specs.Prelude.{IfSome};
ghost use Rattle.cfi_sim.specs.Span.{plain_of, span_of};

use rv_insn::{ImmOp, Insn};

/// How many bytes of a unit stand before an instruction, and how many from there to its last instruction.
#[derive(Clone, Copy, Debug, PartialEq, Eq)]
pub struct Span {
    /// The bytes before it.
    pub before: u32,
    /// The bytes to the last one.
    pub after: u32,
}

/// Where the instruction that ends a unit stands in it.
pub fn span_of(insn: Option<Insn>) -> Span
    ensures { result ≡ span_of insn }
{
    match insn {
        Some(Insn::Load { rs1: 31, .. }) | Some(Insn::Store { .. }) => Span {
            before: 20,
            after: 0,
        },
        Some(Insn::Load { .. }) => Span {
            before: 28,
            after: 24,
        },
        Some(Insn::Ebreak) => Span {
            before: 48,
            after: 4,
        },
        Some(Insn::Jalr { .. }) => Span {
            before: 52,
            after: 0,
        },
        _ => Span {
            before: 0,
            after: 0,
        },
    }
}

/// The instruction that a unit stands for, by its first and its last one: an access or a jump through x31, which the
/// first one has made of a register and an immediate, is one through these.
pub fn plain_of(first: Option<Insn>, last: Option<Insn>) -> Option<Insn>
    requires first { IfSome first InRange }
    requires last { IfSome last InRange }
    ensures insn { result ≡ plain_of first last }
    ensures range { IfSome result InRange }
{
    let Some(
        Insn::OpImm {
            op: ImmOp::Addi,
            rd: 31,
            rs1,
            imm,
        },
    ) = first
    else {
        return last;
    };
    match last {
        Some(Insn::Load { kind, rd, .. }) => Some(Insn::Load { kind, rd, rs1, imm }),
        Some(Insn::Store { kind, rs2, .. }) => Some(Insn::Store {
            kind,
            rs1,
            rs2,
            imm,
        }),
        Some(Insn::Jalr { rd, .. }) => Some(Insn::Jalr { rd, rs1, imm }),
        _ => last,
    }
}
