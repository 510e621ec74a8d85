// Branches, jumps, and what ends a check or a service's instruction.

ghost use Rattle.std.specs.Prelude.{◌≡◌, ◌+◌, ◌<◌, ◌≤◌, ◌^◌, ◌||◌};
ghost use Rattle.rv_insn.specs.declared.opcode.TheConstants as opcodes;
ghost use Rattle.rv_insn.specs.InsnOf.{row_of, cond_at};
ghost use Rattle.cfi_model.specs.Log.{last_picks};
ghost use Rattle.cfi_unit.specs.Free.{is_reserved};
ghost use Rattle.cfi_model.specs.Begin.{begin_by, act_by, picked_by, judged, ran, units_of};
ghost use Rattle.rv_guest.specs.Guest.{KeepsPolicy};

use crate::guest::Guest;
use crate::guest::compute::{is_one_own, is_own};
use cfi_model::{Act, LogBook, Wait};
use cfi_unit::Stop;
use cfi_word::Word;
use cfi_word::services::SERVICE;
use rv_alu::is_taken;
use rv_insn::fields::{fields_of, imm_b, imm_i, imm_j};
use rv_insn::{Cond, opcode};

// Logs a pick under the policy of the kept Tary word, if one is kept.
#[inline(always)]
fn judge(log: &mut LogBook, tary: Option<u64>)
    requires keeps { KeepsPolicy tary log.old }
    requires few { last_picks log.old + 1 < 2 ^ 32 }
    ensures log { log.new ≡ picked_by tary log.old }
    ensures last { last_picks log.new ≤ last_picks log.old + 1 }
{
    if let Some(word) = tary {
        log.pick(Word::policy_of(word));
    }
}

// The condition of a branch's row, where every funct3 has its own arm: no test for one past them is left.
#[inline(always)]
fn cond_within(funct3: u32) -> Option<Cond>
    requires { funct3 < 8 }
    ensures { result ≡ cond_at funct3 }
{
    match funct3 {
        0 => Some(Cond::Beq),
        1 => Some(Cond::Bne),
        2 | 3 => None,
        4 => Some(Cond::Blt),
        5 => Some(Cond::Bge),
        6 => Some(Cond::Bltu),
        _ => Some(Cond::Bgeu),
    }
}

impl Guest {
    #[inline(always)]
    pub(crate) fn branch(&mut self, word: u32) -> Act
        requires { self.old.base.steps + 1 < 2 ^ 32 }
        ensures state { self.new ≡ begin_by (row_of opcodes.BRANCH word) self.old }
        ensures act { result ≡ act_by (row_of opcodes.BRANCH word) self.old }
    {
        let f = fields_of(word);
        let x = self.regs.read(f.rs1);
        let y = self.regs.read(f.rs2);
        let Some(cond) = cond_within(f.funct3) else {
            return Act::Done;
        };
        let to = if is_taken(cond, x, y) {
            self.pc.wrapping_add(imm_b(word))
        } else {
            self.pc.wrapping_add(4)
        };
        self.go_to(to, is_one_own(f.rs1, f.rs2));
        Act::Done
    }

    #[inline(always)]
    pub(crate) fn jal(&mut self, word: u32) -> Act
        requires { self.old.base.steps + 1 < 2 ^ 32 }
        ensures state { self.new ≡ begin_by (row_of opcodes.JAL word) self.old }
        ensures act { result ≡ act_by (row_of opcodes.JAL word) self.old }
    {
        let rd = fields_of(word).rd;
        let to = self.pc.wrapping_add(imm_j(word));
        let after = self.pc.wrapping_add(4);
        self.regs.write(rd, after);
        self.go_to(to, is_own(rd));
        Act::Done
    }

    #[inline(always)]
    pub(crate) fn jalr(&mut self, word: u32) -> Act
        requires { self.old.base.steps + 1 < 2 ^ 32 }
        ensures state { self.new ≡ begin_by (row_of opcodes.JALR word) self.old }
        ensures act { result ≡ act_by (row_of opcodes.JALR word) self.old }
    {
        let f = fields_of(word);
        if f.funct3 != 0 {
            return Act::Done;
        }
        let address = self.regs.read(f.rs1).wrapping_add(imm_i(word));
        let after = self.pc.wrapping_add(4);
        self.regs.write(f.rd, after);
        let to = address - address % 2;
        if f.rs1 == 31 {
            self.end_check();
            self.pc = to;
        } else {
            self.jump_by(f.rd, f.rs1, to);
        }
        Act::Done
    }

    // Goes to the target of a jump that names these registers.
    #[inline(always)]
    fn jump_by(&mut self, rd: u32, rs1: u32, to: u32)
        requires { self.old.base.steps + 1 < 2 ^ 32 }
        ensures { self.new ≡ ran to (units_of (is_reserved rd || is_reserved rs1)) self.old }
    {
        self.go_to(to, is_own(rd) || is_own(rs1));
    }

    // Counts the last instruction of a check, with its pick.
    #[inline(always)]
    fn end_check(&mut self)
        requires { self.old.base.steps + 1 < 2 ^ 32 }
        ensures { let r = judged self.old in self.new ≡ ran self.old.base.pc 1 r }
    {
        self.steps += 1;
        judge(&mut self.log, self.tary);
        self.bary = None;
        self.tary = None;
    }

    #[inline(always)]
    pub(crate) fn system(&mut self, word: u32) -> Act
        requires { self.old.base.steps + 1 < 2 ^ 32 }
        ensures state { self.new ≡ begin_by (row_of opcodes.SYSTEM word) self.old }
        ensures act { result ≡ act_by (row_of opcodes.SYSTEM word) self.old }
    {
        match word {
            opcode::ECALL => {
                let number = self.regs.read(SERVICE);
                self.steps += 1;
                self.inner += 1;
                self.pc = self.pc.wrapping_add(4);
                self.waits = Some(Wait::Service(number));
                Act::Service(number)
            }
            opcode::EBREAK => {
                let target = self.regs.read(31);
                self.end_check();
                self.stop = Some(Stop::Halt(target));
                Act::Halt(target)
            }
            _ => Act::Done,
        }
    }
}
