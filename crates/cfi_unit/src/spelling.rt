ghost use Rattle.std.specs.Prelude.{◌≡◌, ◌++◌, OnOk, OnErr};
ghost use Rattle.cfi_unit.specs.Unit.{IsUnit, insns_of, words_of};

use crate::unit::Unit;
use crate::{check, masked};
use rv_insn::{Insn, encode};
use std::alloc::AllocError;

/// Appends the words of a unit.
///
/// For a unit that has a spelling. Where memory is wanting, nothing is appended.
pub fn spell(unit: &Unit, out: &mut Vec<u32>) -> Result<(), AllocError>
    requires { IsUnit unit.now }
    ensures ok { OnOk result (out.new.items ≡ out.old.items ++ words_of unit.now) }
    ensures err { OnErr result (out.new.items ≡ out.old.items) }
{
    match *unit {
        Unit::Plain(insn) => out.push(encode(&insn))?,
        Unit::Load { kind, rd, rs1, imm } => {
            let access = Insn::Load {
                kind,
                rd,
                rs1: 31,
                imm: 0,
            };
            out.extend_from_slice(&masked::words_by(rs1, imm, access))?;
        }
        Unit::Store {
            kind,
            rs1,
            rs2,
            imm,
        } => {
            let access = Insn::Store {
                kind,
                rs1: 31,
                rs2,
                imm: 0,
            };
            out.extend_from_slice(&masked::words_by(rs1, imm, access))?;
        }
        Unit::Branch {
            cond,
            rs1,
            rs2,
            off,
        } => out.push(encode(&Insn::Branch {
            cond,
            rs1,
            rs2,
            off,
        }))?,
        Unit::Jump { link, off } => out.push(encode(&Insn::Jal {
            rd: u32::from(link),
            off,
        }))?,
        Unit::Check {
            link,
            rs1,
            imm,
            slot,
        } => {
            out.extend_from_slice(&check::words_by(link, rs1, imm, slot))?;
        }
        Unit::Service => out.push(encode(&Insn::Ecall))?,
    }
    Ok(())
}
