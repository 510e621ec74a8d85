//! The units that the items of a text become.

ghost use Rattle.std.specs.Prelude.{◌≡◌, ◌*◌, ◌<◌, ◌^◌};
ghost use Rattle.cfi_instr.specs.Jumps.{ordinal_of};
ghost use Rattle.cfi_instr.specs.Units.{inverse, distance, displacement_from, unit_of, off_of, short_unit, over, long_jump, is_wide, pair_unit};

use crate::arrangement::Arrangement;
use crate::insns::{is_branch, is_linked};
use crate::reach::target_of;
use crate::sizes::{is_long, offset_at};
use crate::source::Source;
use cfi_unit::Unit;
use rv_insn::{Cond, Insn};

/// The condition that holds exactly where another does not.
pub fn inverse(cond: Cond) -> Cond
    ensures { result ≡ inverse cond }
{
    match cond {
        Cond::Beq => Cond::Bne,
        Cond::Bne => Cond::Beq,
        Cond::Blt => Cond::Bge,
        Cond::Bge => Cond::Blt,
        Cond::Bltu => Cond::Bgeu,
        Cond::Bgeu => Cond::Bltu,
    }
}

/// The way from one offset to another.
pub fn distance(from: u32, to: u32) -> i32
    requires from { from < 2 ^ 31 }
    requires to { to < 2 ^ 31 }
    ensures { result ≡ distance from to }
{
    if from <= to {
        (to - from) as i32
    } else {
        -1 - (from - to - 1) as i32
    }
}

// The displacement of an instruction, 0 where it has none.
fn off_of(insn: Insn) -> i32
    ensures { result ≡ off_of insn }
{
    match insn {
        Insn::Branch { off, .. } | Insn::Jal { off, .. } => off,
        _ => 0,
    }
}

// The unit of an item that is one instruction, and no long branch.
fn unit_of(number: u32, off: i32, insn: Insn) -> Unit
    ensures { result ≡ unit_of number off insn }
{
    match insn {
        Insn::Load { kind, rd, rs1, imm } => Unit::Load { kind, rd, rs1, imm },
        Insn::Store {
            kind,
            rs1,
            rs2,
            imm,
        } => Unit::Store {
            kind,
            rs1,
            rs2,
            imm,
        },
        Insn::Jalr { rd, rs1, imm } => Unit::Check {
            link: rd == 1,
            rs1,
            imm,
            slot: number,
        },
        Insn::Branch { cond, rs1, rs2, .. } => Unit::Branch {
            cond,
            rs1,
            rs2,
            off,
        },
        Insn::Jal { rd, .. } => Unit::Jump { link: rd == 1, off },
        Insn::Ecall => Unit::Service,
        _ => Unit::Plain(insn),
    }
}

/// The first unit of a long branch: the inverse one, over the second.
pub fn over(insn: Insn) -> Unit
    ensures { result ≡ over insn }
{
    match insn {
        Insn::Branch { cond, rs1, rs2, .. } => Unit::Branch {
            cond: inverse(cond),
            rs1,
            rs2,
            off: 8,
        },
        _ => Unit::Plain(insn),
    }
}

/// The unit of a pair at the word: a jump that a relocation will fill.
pub fn pair_unit(source: &Source, w: usize) -> Unit
    requires { 4 * w < 2 ^ 32 }
    ensures { result ≡ pair_unit source.now w }
{
    let link = match source.insn_at(w + 1) {
        Some(insn) => is_linked(insn),
        None => false,
    };
    Unit::Jump { link, off: 0 }
}

impl<'a> Arrangement<'a> {
    // The displacement from an offset of the output to the target of the jump or branch at the word; `under` where a
    // relocation will fill it.
    fn displacement_from(&self, w: usize, from: u32, off: i32, under: i32) -> i32
        requires word { 4 * w < 2 ^ 32 }
        requires from { from < 2 ^ 31 }
        ensures { result ≡
            displacement_from self.now.source self.now.symbols self.now.offsets w from off under }
    {
        if self.source.reloc_on(w).is_some() {
            return under;
        }
        let aim = self.source.aim_of_jump(self.symbols, w, off);
        distance(from, target_of(self.offsets, aim))
    }

    /// The unit of an instruction that is no long branch; `number` is that of an indirect jump.
    pub fn short_unit(&self, w: usize, number: u32, insn: Insn) -> Unit
        requires { 4 * w < 2 ^ 32 }
        ensures { number ≡ ordinal_of self.now.source w →
            result ≡ short_unit self.now.source self.now.symbols self.now.offsets w insn }
    {
        let off = off_of(insn);
        let off = self.displacement_from(w, offset_at(self.offsets, w), off, off);
        unit_of(number, off, insn)
    }

    /// The second unit of a long branch: the jump.
    pub fn long_jump(&self, w: usize, insn: Insn) -> Unit
        requires { 4 * w < 2 ^ 32 }
        ensures { result ≡ long_jump self.now.source self.now.symbols self.now.offsets w insn }
    {
        let from = offset_at(self.offsets, w) + 4;
        Unit::Jump {
            link: false,
            off: self.displacement_from(w, from, off_of(insn), 0),
        }
    }

    /// Whether the instruction at the word is a long branch.
    pub fn is_wide(&self, w: usize, insn: Insn) -> bool
        ensures { result ≡ is_wide self.now.long w insn }
    {
        is_long(self.long, w) && is_branch(insn)
    }
}
