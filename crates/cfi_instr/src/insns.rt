//! What instructions are, and which the instrumenter refuses.

ghost use Rattle.std.specs.Prelude.{◌≡◌};
ghost use Rattle.cfi_instr.specs.inner.Insns.{is_lui, is_jal, is_store, is_addi, has_low, is_nop, is_trap, is_bad_link};
ghost use Rattle.cfi_instr.specs.Insns.{is_auipc, is_jalr, is_branch, is_zero, jump_writes, is_link, is_linked, is_unlinked};
ghost use Rattle.cfi_unit.specs.Free.{is_reserved, names_reserved};

use cfi_unit::FREE_REGISTERS;
use rv_insn::{ImmOp, Insn};

/// Whether it is LUI.
pub(crate) fn is_lui(insn: Insn) -> bool
    ensures { result ≡ is_lui insn }
{
    matches!(insn, Insn::Lui { .. })
}

/// Whether it is AUIPC.
pub fn is_auipc(insn: Insn) -> bool
    ensures { result ≡ is_auipc insn }
{
    matches!(insn, Insn::Auipc { .. })
}

/// Whether it is JAL.
pub(crate) fn is_jal(insn: Insn) -> bool
    ensures { result ≡ is_jal insn }
{
    matches!(insn, Insn::Jal { .. })
}

/// Whether it is JALR.
pub fn is_jalr(insn: Insn) -> bool
    ensures { result ≡ is_jalr insn }
{
    matches!(insn, Insn::Jalr { .. })
}

/// Whether it is a conditional branch.
pub fn is_branch(insn: Insn) -> bool
    ensures { result ≡ is_branch insn }
{
    matches!(insn, Insn::Branch { .. })
}

/// Whether it is a store.
pub(crate) fn is_store(insn: Insn) -> bool
    ensures { result ≡ is_store insn }
{
    matches!(insn, Insn::Store { .. })
}

fn is_addi(op: ImmOp) -> bool
    ensures { result ≡ is_addi op }
{
    matches!(op, ImmOp::Addi)
}

/// Whether it has the field of a low part: a load, ADDI or JALR.
pub(crate) fn has_low(insn: Insn) -> bool
    ensures { result ≡ has_low insn }
{
    match insn {
        Insn::Load { .. } | Insn::Jalr { .. } => true,
        Insn::OpImm { op, .. } => is_addi(op),
        _ => false,
    }
}

/// Whether it is `addi x0,x0,0`.
pub(crate) fn is_nop(insn: Insn) -> bool
    ensures { result ≡ is_nop insn }
{
    match insn {
        Insn::OpImm { op, rd, rs1, imm } => is_addi(op) && rd == 0 && rs1 == 0 && is_zero(imm),
        _ => false,
    }
}

/// Whether a number is 0.
pub fn is_zero(number: i32) -> bool
    ensures { result ≡ is_zero number }
{
    number == 0
}

/// The register that a jump writes, if it is one.
pub fn jump_writes(insn: Insn) -> Option<u32>
    ensures { result ≡ jump_writes insn }
{
    match insn {
        Insn::Jal { rd, .. } | Insn::Jalr { rd, .. } => Some(rd),
        _ => None,
    }
}

// Whether the register that a jump writes is this one.
fn is_link(register: u32, link: Option<u32>) -> bool
    ensures { result ≡ is_link register link }
{
    match link {
        Some(rd) => rd == register,
        None => false,
    }
}

/// Whether it is a jump that puts the address after it into x1.
pub fn is_linked(insn: Insn) -> bool
    ensures { result ≡ is_linked insn }
{
    is_link(1, jump_writes(insn))
}

/// Whether it is a jump that keeps no address.
pub fn is_unlinked(insn: Insn) -> bool
    ensures { result ≡ is_unlinked insn }
{
    is_link(0, jump_writes(insn))
}

// Whether a register belongs to the instrumentation.
fn is_taken(register: u32) -> bool
    ensures { result ≡ is_reserved register }
{
    register >= FREE_REGISTERS
}

/// Whether it names a register of the instrumentation. A fence names none.
pub(crate) fn names_reserved(insn: Insn) -> bool
    ensures { result ≡ names_reserved insn }
{
    match insn {
        Insn::Lui { rd, .. } | Insn::Auipc { rd, .. } | Insn::Jal { rd, .. } => is_taken(rd),
        Insn::Jalr { rd, rs1, .. } | Insn::Load { rd, rs1, .. } | Insn::OpImm { rd, rs1, .. } => {
            is_taken(rd) || is_taken(rs1)
        }
        Insn::Branch { rs1, rs2, .. } | Insn::Store { rs1, rs2, .. } => {
            is_taken(rs1) || is_taken(rs2)
        }
        Insn::Op { rd, rs1, rs2, .. } => is_taken(rd) || is_taken(rs1) || is_taken(rs2),
        Insn::Fence { .. } | Insn::Ecall | Insn::Ebreak => false,
    }
}

/// Whether it is EBREAK.
pub(crate) fn is_trap(insn: Insn) -> bool
    ensures { result ≡ is_trap insn }
{
    matches!(insn, Insn::Ebreak)
}

/// Whether it is a jump that writes another register than x0 and x1.
pub(crate) fn is_bad_link(insn: Insn) -> bool
    ensures { result ≡ is_bad_link insn }
{
    match jump_writes(insn) {
        Some(rd) => !(rd == 0 || rd == 1),
        None => false,
    }
}
