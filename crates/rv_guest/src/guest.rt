ghost use Rattle.std.specs.Prelude.{◌≡◌, ◌+◌, ◌<◌, ◌^◌, IfOk};
ghost use Rattle.std.specs.List.{All};
ghost use Rattle.cfi_model.specs.Data.{LiesInData};
ghost use Rattle.cfi_model.specs.Raw.{Raw, raw_opened};
ghost use Rattle.cfi_model.specs.Begin.{begin_of, act_of};

use crate::decode::opcode_of;
use crate::registers::Registers;
use cfi_model::{Act, LogBook, Output, PrivateData, Wait};
use cfi_unit::{Fill, Stop};
use cfi_word::map::STACK;
use cfi_word::services::ARGUMENT;
use rv_insn::opcode;
use std::alloc::{AllocError, Global};
use std::marker::Model;

mod access;
mod compute;
mod jumps;
mod readers;
mod services;

/// A guest of the raw machine, with its registers, private data, output and log.
#[derive(Debug, Drop)]
pub struct Guest {
    number: u32,
    regs: Registers,
    pc: u32,
    memory: PrivateData,
    output: Output,
    log: LogBook,
    // How many of the fetched instructions ended no unit: the others, which are more, need no count of their own.
    inner: u32,
    steps: u32,
    stop: Option<Stop>,
    bary: Option<u64>,
    tary: Option<u64>,
    waits: Option<Wait>,
}

impl Model for Guest {
    ghost use Rattle.std.specs.Prelude.{◌-◌};
    ghost use Rattle.cfi_model.specs.Raw.{Raw};
    ghost use Rattle.rv_guest.specs.Guest.{IsCounted};

    ghost Value = { Raw };

    ghost view = { λ g. record {
      base = record {
        number = g.number;
        regs = g.regs.free;
        pc = g.pc;
        memory = g.memory;
        output = g.output;
        log = g.log;
        units = g.steps - g.inner;
        steps = g.steps;
        stop = g.stop;
      };
      x28 = g.regs.x28;
      x29 = g.regs.x29;
      x30 = g.regs.x30;
      x31 = g.regs.x31;
      bary = g.bary;
      tary = g.tary;
      waits = g.waits;
    } };

    ghost invariant = { λ g. IsCounted g.inner g.steps g.log g.tary g.waits };
}

impl Guest {
    /// Opens a guest of this number at this address, with fills inside private data.
    ///
    /// x2 is past the end of private data, and x10 the number. Room for the output and the log is reserved.
    pub fn open(alloc: Global, number: u32, entry: u32, fills: &[Fill]) -> Result<Guest, AllocError>
        requires { All LiesInData fills.now }
        ensures { IfOk result (λ g. g ≡ raw_opened number entry fills.now) }
    {
        let mut memory = PrivateData::new(alloc)?;
        memory.fill(fills);
        let mut regs = Registers::new();
        regs.write(2, STACK);
        regs.write(ARGUMENT, number);
        Ok(Guest {
            number,
            regs,
            pc: entry,
            memory,
            output: Output::new(alloc)?,
            log: LogBook::new(alloc)?,
            inner: 0,
            steps: 0,
            stop: None,
            bary: None,
            tary: None,
            waits: None,
        })
    }

    /// Runs the instruction at `pc`, whose word this is, and says what it asks for.
    ///
    /// After `Need` the guest waits for a table word, after `Service` in that service. A word that is no instruction,
    /// and an access that has no meaning, are `Done` and leave the guest as it is. RISC-V Unprivileged ISA 20191213,
    /// 2.
    #[inline(always)]
    pub fn begin(&mut self, word: u32) -> Act
        requires { self.old.base.steps + 1 < 2 ^ 32 }
        ensures state { self.new ≡ begin_of self.old word }
        ensures act { result ≡ act_of self.old word }
    {
        match opcode_of(word) {
            opcode::OP_IMM => self.op_imm(word),
            opcode::OP => self.op(word),
            opcode::BRANCH => self.branch(word),
            opcode::LOAD => self.load(word),
            opcode::STORE => self.store(word),
            opcode::JAL => self.jal(word),
            opcode::JALR => self.jalr(word),
            opcode::LUI => self.lui(word),
            opcode::AUIPC => self.auipc(word),
            opcode::FENCE => self.fence(word),
            opcode::SYSTEM => self.system(word),
            _ => Act::Done,
        }
    }
}
