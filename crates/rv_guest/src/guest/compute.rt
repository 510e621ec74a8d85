// Instructions on registers alone.

ghost use Rattle.std.specs.Prelude.{◌≡◌, ◌+◌, ◌<◌, ◌^◌, ◌||◌};
ghost use Rattle.rv_insn.specs.declared.opcode.TheConstants as opcodes;
ghost use Rattle.rv_insn.specs.InsnOf.{row_of};
ghost use Rattle.cfi_unit.specs.declared.unit.TheConstants.{FREE_REGISTERS};
ghost use Rattle.cfi_model.specs.Raw.{with_reg};
ghost use Rattle.cfi_unit.specs.Free.{is_reserved};
ghost use Rattle.cfi_model.specs.Begin.{begin_by, act_by, ran, units_of, next};

use crate::decode::imm_of;
use crate::guest::Guest;
use cfi_model::Act;
use cfi_unit::FREE_REGISTERS;
use rv_alu::{imm_op_value, op_value};
use rv_insn::fields::{fields_of, upper};
use rv_insn::rows::{imm_op_of, op_of};

/// Whether the register is one of the instrumentation's, x28 to x31.
#[inline(always)]
pub fn is_own(k: u32) -> bool
    ensures { result ≡ is_reserved k }
{
    FREE_REGISTERS <= k
}

/// Whether one of two registers is: one test of the larger number in place of two.
#[inline(always)]
pub fn is_one_own(a: u32, b: u32) -> bool
    ensures { result ≡ (is_reserved a || is_reserved b) }
{
    is_own(a.max(b))
}

impl Guest {
    // Counts an instruction, which names a register of the instrumentation or not, and goes on.
    #[inline(always)]
    pub(crate) fn go_to(&mut self, to: u32, reserved: bool)
        requires { self.old.base.steps + 1 < 2 ^ 32 }
        ensures { self.new ≡ ran to (units_of reserved) self.old }
    {
        self.pc = to;
        self.steps += 1;
        if reserved {
            self.inner += 1;
        }
    }

    // Writes a register and goes on.
    #[inline(always)]
    fn give(&mut self, rd: u32, value: u32, reserved: bool)
        requires steps { self.old.base.steps + 1 < 2 ^ 32 }
        requires rd { rd < 32 }
        ensures { self.new ≡ ran (next self.old) (units_of reserved) (with_reg self.old rd value) }
    {
        self.go_to(self.pc.wrapping_add(4), reserved);
        self.regs.write(rd, value);
    }

    #[inline(always)]
    pub(crate) fn lui(&mut self, word: u32) -> Act
        requires { self.old.base.steps + 1 < 2 ^ 32 }
        ensures state { self.new ≡ begin_by (row_of opcodes.LUI word) self.old }
        ensures act { result ≡ act_by (row_of opcodes.LUI word) self.old }
    {
        let rd = fields_of(word).rd;
        self.give(rd, upper(word), is_own(rd));
        Act::Done
    }

    #[inline(always)]
    pub(crate) fn auipc(&mut self, word: u32) -> Act
        requires { self.old.base.steps + 1 < 2 ^ 32 }
        ensures state { self.new ≡ begin_by (row_of opcodes.AUIPC word) self.old }
        ensures act { result ≡ act_by (row_of opcodes.AUIPC word) self.old }
    {
        let rd = fields_of(word).rd;
        self.give(rd, self.pc.wrapping_add(upper(word)), is_own(rd));
        Act::Done
    }

    #[inline(always)]
    pub(crate) fn op_imm(&mut self, word: u32) -> Act
        requires { self.old.base.steps + 1 < 2 ^ 32 }
        ensures state { self.new ≡ begin_by (row_of opcodes.OP_IMM word) self.old }
        ensures act { result ≡ act_by (row_of opcodes.OP_IMM word) self.old }
    {
        let f = fields_of(word);
        let x = self.regs.read(f.rs1);
        let Some(op) = imm_op_of(f.funct3, f.funct7) else {
            return Act::Done;
        };
        let value = imm_op_value(op, x, imm_of(op, word, f.rs2));
        self.give(f.rd, value, is_own(f.rd) || is_own(f.rs1));
        Act::Done
    }

    #[inline(always)]
    pub(crate) fn op(&mut self, word: u32) -> Act
        requires { self.old.base.steps + 1 < 2 ^ 32 }
        ensures state { self.new ≡ begin_by (row_of opcodes.OP word) self.old }
        ensures act { result ≡ act_by (row_of opcodes.OP word) self.old }
    {
        let f = fields_of(word);
        let x = self.regs.read(f.rs1);
        let y = self.regs.read(f.rs2);
        let Some(op) = op_of(f.funct3, f.funct7) else {
            return Act::Done;
        };
        let value = op_value(op, x, y);
        self.give(f.rd, value, is_own(f.rd) || is_one_own(f.rs1, f.rs2));
        Act::Done
    }

    #[inline(always)]
    pub(crate) fn fence(&mut self, word: u32) -> Act
        requires { self.old.base.steps + 1 < 2 ^ 32 }
        ensures state { self.new ≡ begin_by (row_of opcodes.FENCE word) self.old }
        ensures act { result ≡ act_by (row_of opcodes.FENCE word) self.old }
    {
        if fields_of(word).funct3 == 0 {
            self.go_to(self.pc.wrapping_add(4), false);
        }
        Act::Done
    }
}
