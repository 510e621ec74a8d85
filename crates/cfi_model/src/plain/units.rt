// What each kind of unit does, in how many instructions.

ghost use Rattle.std.specs.Prelude.{◌≡◌, ◌+◌, ◌<◌, ◌≤◌, ◌^◌, false, if◌then◌else◌};
ghost use Rattle.cfi_unit.specs.declared.unit.TheConstants.{FREE_REGISTERS};
ghost use Rattle.cfi_unit.specs.Unit.{IsPlain, IsUnit, link_register};
ghost use Rattle.cfi_model.specs.Data.{load_width, store_width, loaded};
ghost use Rattle.cfi_model.specs.Pages.{memory_stored};
ghost use Rattle.cfi_model.specs.Log.{last_policy};
ghost use Rattle.cfi_model.specs.State.{regs_with, register, displaced, after};
ghost use Rattle.cfi_model.specs.Effect.{going_to, plain_regs, masked_at, load_effect, store_effect, checked, accessed};
ghost use Rattle.cfi_model.specs.Plain.{unit_of};
ghost use Rattle.cfi_model.specs.inner.Pairs.{allows_in};
ghost use Rattle.cfi_word.specs.declared.map.TheConstants.{DATA_BYTES};
ghost use Rattle.cfi_word.specs.declared.limits.TheConstants.{MAX_POLICY};

use crate::data::{load_width, store_width};
use crate::plain::Plain;
use crate::plain::pairs::Pairs;
use cfi_unit::{FREE_REGISTERS, Stop, Unit};
use cfi_word::map::{CODE_BYTES, DATA_BYTES, DATA_START};
use cfi_word::sizes::{
    ACCESS_WORDS, CHECK_WORDS, FORBIDDEN_STEPS, MISALIGNED_STEPS, OUTSIDE_STEPS, PASSED_STEPS,
};
use rv_alu::{imm_op_value, is_taken, op_value};
use rv_insn::{Insn, LoadKind, StoreKind};

// Writes a register; x0 stays 0.
fn write(regs: &mut [u32; FREE_REGISTERS as usize], k: u32, value: u32)
    requires { k < FREE_REGISTERS }
    ensures { regs.new ≡ regs_with regs.old k value }
{
    if k != 0 {
        regs[k as usize] = value;
    }
}

impl Plain {
    // Runs a unit.
    pub(crate) fn run(&mut self, unit: Unit, policy: u32, pairs: Pairs<'_>)
        requires unit { IsUnit unit }
        requires going { self.old.waits ≡ false }
        requires rises { last_policy self.old.state.log ≤ policy }
        requires most { policy ≤ MAX_POLICY }
        requires few { self.old.state.units + 1 < 2 ^ 32 }
        ensures { self.new ≡ unit_of unit policy (allows_in pairs.entry) self.old }
    {
        match unit {
            Unit::Plain(insn) => self.compute(insn),
            Unit::Load { kind, rd, rs1, imm } => self.load(kind, rd, rs1, imm),
            Unit::Store {
                kind,
                rs1,
                rs2,
                imm,
            } => self.store(kind, rs1, rs2, imm),
            Unit::Branch {
                cond,
                rs1,
                rs2,
                off,
            } => {
                let to = if is_taken(cond, self.register(rs1), self.register(rs2)) {
                    self.pc.wrapping_add_signed(off)
                } else {
                    self.pc.wrapping_add(4)
                };
                self.go_to(to);
            }
            Unit::Jump { link, off } => self.jump(link, self.pc.wrapping_add_signed(off)),
            Unit::Check {
                link,
                rs1,
                imm,
                slot,
            } => {
                let target = self.register(rs1).wrapping_add_signed(imm);
                let allowed = pairs.allow(slot, target);
                self.check(link, target, policy, allowed);
            }
            Unit::Service => self.service(),
        }
    }

    // Ends a unit of one instruction.
    pub(crate) fn go_to(&mut self, to: u32)
        requires going { self.old.waits ≡ false }
        requires few { self.old.state.units + 1 < 2 ^ 32 }
        ensures { self.new ≡ record self.old { state = going_to to 1 self.old.state } }
    {
        self.pc = to;
        self.units += 1;
        self.steps += 1;
    }

    fn compute(&mut self, insn: Insn)
        requires plain { IsPlain insn }
        requires going { self.old.waits ≡ false }
        requires few { self.old.state.units + 1 < 2 ^ 32 }
        ensures { let s = self.old.state in self.new ≡ record self.old {
          state = going_to (after 4 s.pc) 1 (record s { regs = plain_regs insn s });
        } }
    {
        match insn {
            Insn::Lui { rd, imm } => write(&mut self.regs, rd, imm << 12),
            Insn::Auipc { rd, imm } => {
                let value = self.pc.wrapping_add(imm << 12);
                write(&mut self.regs, rd, value);
            }
            Insn::OpImm { op, rd, rs1, imm } => {
                let value = imm_op_value(op, self.regs[rs1 as usize], imm.cast_unsigned());
                write(&mut self.regs, rd, value);
            }
            Insn::Op { op, rd, rs1, rs2 } => {
                let value = op_value(op, self.regs[rs1 as usize], self.regs[rs2 as usize]);
                write(&mut self.regs, rd, value);
            }
            _ => {}
        }
        self.go_to(self.pc.wrapping_add(4));
    }

    fn jump(&mut self, link: bool, to: u32)
        requires going { self.old.waits ≡ false }
        requires few { self.old.state.units + 1 < 2 ^ 32 }
        ensures { let s = self.old.state in self.new ≡ record self.old {
          state = going_to to 1
              (record s { regs = regs_with s.regs (link_register link) (after 4 s.pc) });
        } }
    {
        if link {
            self.regs[1] = self.pc.wrapping_add(4);
        }
        self.go_to(to);
    }

    // The offset of a masked access.
    fn masked(&self, rs1: u32, imm: i32) -> u32
        requires { rs1 < FREE_REGISTERS }
        ensures at { result ≡ masked_at rs1 imm self.now.state }
        ensures within { result < DATA_BYTES }
    {
        self.register(rs1).wrapping_add_signed(imm) % DATA_BYTES
    }

    // Ends a masked access at the offset, which fits or stops the guest.
    fn end_access(&mut self, fits: bool, offset: u32)
        requires going { self.old.waits ≡ false }
        requires few { self.old.state.units + 1 < 2 ^ 32 }
        requires within { offset < DATA_BYTES }
        ensures { let s = self.old.state in self.new ≡ record self.old {
          state = accessed fits offset s.regs s.memory s;
        } }
    {
        if fits {
            self.pc = self.pc.wrapping_add(4 * ACCESS_WORDS as u32);
        } else {
            self.stop = Some(Stop::Align(DATA_START + offset));
        }
        self.units += 1;
        self.steps += ACCESS_WORDS as u64;
    }

    fn load(&mut self, kind: LoadKind, rd: u32, rs1: u32, imm: i32)
        requires rd { rd < FREE_REGISTERS }
        requires rs1 { rs1 < FREE_REGISTERS }
        requires going { self.old.waits ≡ false }
        requires few { self.old.state.units + 1 < 2 ^ 32 }
        ensures { let s = self.old.state in let offset = masked_at rs1 imm s in
            self.new ≡ record self.old {
              state = load_effect (load_width kind) (loaded kind s.memory.bytes offset) offset rd s;
            } }
    {
        let offset = self.masked(rs1, imm);
        let fits = offset % load_width(kind) == 0;
        if fits {
            let value = self.memory.load(kind, offset);
            write(&mut self.regs, rd, value);
        }
        self.end_access(fits, offset);
    }

    fn store(&mut self, kind: StoreKind, rs1: u32, rs2: u32, imm: i32)
        requires rs1 { rs1 < FREE_REGISTERS }
        requires rs2 { rs2 < FREE_REGISTERS }
        requires going { self.old.waits ≡ false }
        requires few { self.old.state.units + 1 < 2 ^ 32 }
        ensures { let s = self.old.state in let offset = masked_at rs1 imm s in
            self.new ≡ record self.old {
              state = store_effect (store_width kind) offset
                  (memory_stored kind s.memory offset (register s rs2)) s;
            } }
    {
        let offset = self.masked(rs1, imm);
        let fits = offset % store_width(kind) == 0;
        if fits {
            let value = self.register(rs2);
            self.memory.store(kind, offset, value);
        }
        self.end_access(fits, offset);
    }

    // A check of a target, which the policy allows or not.
    fn check(&mut self, link: bool, target: u32, policy: u32, allowed: bool)
        requires going { self.old.waits ≡ false }
        requires rises { last_policy self.old.state.log ≤ policy }
        requires most { policy ≤ MAX_POLICY }
        requires few { self.old.state.units + 1 < 2 ^ 32 }
        ensures { self.new ≡ record self.old {
          state = checked policy allowed link target self.old.state;
        } }
    {
        self.units += 1;
        if target >= CODE_BYTES {
            self.steps += OUTSIDE_STEPS as u64;
            self.stop = Some(Stop::Halt(target));
        } else if target % 4 != 0 {
            self.steps += MISALIGNED_STEPS as u64;
            self.stop = Some(Stop::Halt(target));
        } else {
            self.log.pick(policy);
            if allowed {
                if link {
                    self.regs[1] = self.pc.wrapping_add(4 * CHECK_WORDS as u32);
                }
                self.steps += PASSED_STEPS as u64;
                self.pc = target;
            } else {
                self.steps += FORBIDDEN_STEPS as u64;
                self.stop = Some(Stop::Halt(target));
            }
        }
    }
}
