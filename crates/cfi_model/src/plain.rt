ghost use Rattle.std.specs.Prelude.{◌≡◌, ℕ, ◌+◌, ◌<◌, ◌≤◌, ◌^◌, ◌/◌, ◌%◌, IfNone, IfOk, IfSome, IsTrue, None, Some, if◌then◌else◌, length};
ghost use Rattle.std.specs.List.{All};
ghost use Rattle.cfi_unit.specs.declared.unit.Unit.{Unit as CodeUnit};
ghost use Rattle.cfi_unit.specs.Code.{BeginsAt};
ghost use Rattle.cfi_word.specs.declared.limits.TheConstants.{MAX_POLICY};
ghost use Rattle.cfi_model.specs.Data.{LiesInData};
ghost use Rattle.cfi_model.specs.Log.{last_policy};
ghost use Rattle.cfi_unit.specs.declared.unit.TheConstants.{FREE_REGISTERS};

use crate::log_book::LogBook;
use crate::output::Output;
use crate::pages::PrivateData;
use crate::plain::pairs::Pairs;
use crate::step::PlainStep;
use cfi_unit::laws::unit_within;
use cfi_unit::{Answer, FREE_REGISTERS, Fill, Log, Stop, Unit, next_unit};
use cfi_word::map::STACK;
use cfi_word::services::ARGUMENT;
use cfi_word::{Edge, Labels};
use std::alloc::{AllocError, Global};
use std::marker::Model;

mod pairs;
mod services;
mod units;

/// A guest as the policy machine runs it, unit by unit.
#[derive(Debug, Drop)]
pub struct Plain {
    number: u32,
    regs: [u32; FREE_REGISTERS as usize],
    pc: u32,
    memory: PrivateData,
    output: Output,
    log: LogBook,
    units: u32,
    steps: u64,
    stop: Option<Stop>,
    waits: bool,
}

impl Model for Plain {
    ghost use Rattle.std.specs.Prelude.{◌≡◌, ◌≤◌, ◌*◌, ◌<◌};
    ghost use Rattle.cfi_model.specs.Plain.{PlainState, IsCounted};

    ghost Value = { PlainState };

    ghost view = { λ m. record {
      state = record {
        number = m.number;
        regs = m.regs;
        pc = m.pc;
        memory = m.memory;
        output = m.output;
        log = m.log;
        units = m.units;
        steps = m.steps;
        stop = m.stop;
      };
      waits = m.waits;
    } };

    ghost invariant = { λ m. IsCounted m.units m.steps m.log m.waits };
}

impl Plain {
    ghost use Rattle.cfi_model.specs.State.{register};
    ghost use Rattle.cfi_model.specs.Service.{reply_of, argument};
    ghost use Rattle.cfi_model.specs.Plain.{PlainState, plain_opened, CanRun, CanTurn, CanEnd, IsTurn};
    ghost use Rattle.cfi_model.specs.Plain.{has_one_class, unit_of, step_of, answered, with_fills};
    ghost use Rattle.cfi_model.specs.Effect.{allows_by};
    ghost use Rattle.cfi_model.specs.Shows.{Stands};

    /// Opens a guest of this number at this address, with fills inside private data.
    ///
    /// x2 is past the end of private data, and x10 the number.
    pub fn open(alloc: Global, number: u32, entry: u32, fills: &[Fill]) -> Result<Plain, AllocError>
        requires { All LiesInData fills.now }
        ensures { IfOk result (λ m. m ≡ plain_opened number entry fills.now) }
    {
        let mut memory = PrivateData::new(alloc)?;
        memory.fill(fills);
        let mut regs = [0; FREE_REGISTERS as usize];
        regs[2] = STACK;
        regs[ARGUMENT as usize] = number;
        Ok(Plain {
            number,
            regs,
            pc: entry,
            memory,
            output: Output::new(alloc)?,
            log: LogBook::new(alloc)?,
            units: 0,
            steps: 0,
            stop: None,
            waits: false,
        })
    }

    /// Runs the unit of `code` at `pc` under one policy, whose pairs of branch slots and targets are `allowed`.
    ///
    /// `code` is by word, from address 0. The policy is at most `MAX_POLICY` and not below the last one that is
    /// logged. The guest has not stopped, waits for nothing, and has run fewer than 2^32 - 1 units.
    pub fn unit(&mut self, code: &[u32], policy: u32, allowed: &[Edge]) -> PlainStep
        requires { CanRun code.now policy self.old }
        ensures state { (unit : CodeUnit) → BeginsAt code.now (self.old.state.pc / 4) unit
            → self.new ≡ unit_of unit policy (allows_by allowed.now) self.old }
        ensures step { result ≡ step_of self.new }
    {
        let Some(unit) = self.next(code) else {
            unreachable!();
        };
        self.run(unit, policy, Pairs::Listed(allowed));
        self.step()
    }

    /// Runs the unit of `code` at `pc` under one policy, whose pairs are those of one class in `labels`.
    ///
    /// `code` is by word, from address 0. The policy is at most `MAX_POLICY` and not below the last one that is
    /// logged. The guest has not stopped, waits for nothing, and has run fewer than 2^32 - 1 units. `None` exactly
    /// where no unit begins at `pc`, and then nothing has changed.
    pub fn turn(&mut self, code: &[u32], policy: u32, labels: &Labels) -> Option<PlainStep>
        requires { CanTurn policy self.old }
        ensures some { IfSome result
            (IsTurn code.now policy (has_one_class labels.now) self.old self.new) }
        ensures none { IfNone result
            ((unit : CodeUnit) → ¬ Stands code.now self.old.state.pc unit) }
        ensures same { IfNone result (self.new ≡ self.old) }
    {
        let unit = self.next(code)?;
        self.run(unit, policy, Pairs::OneClass(labels));
        Some(self.step())
    }

    // The unit at which it stands.
    fn next(&self, code: &[u32]) -> Option<Unit>
        ensures some { IfSome result (Stands code.now self.now.state.pc) }
        ensures only { (unit : CodeUnit) → Stands code.now self.now.state.pc unit
            → result ≡ Some unit }
    {
        unit_within();
        if self.pc % 4 != 0 {
            return None;
        }
        let at = self.pc / 4;
        if at as usize > code.len() {
            return None;
        }
        let (unit, _) = next_unit(code, at)?;
        Some(unit)
    }

    // How the last unit ended.
    fn step(&self) -> PlainStep
        ensures { result ≡ step_of self.now }
    {
        if self.waits {
            return PlainStep::Asks(self.argument());
        }
        match self.stop {
            Some(stop) => PlainStep::Stopped(stop),
            None => PlainStep::Went,
        }
    }

    /// Answers the open that the guest waits for.
    ///
    /// The policy is at most `MAX_POLICY` and not below the last one that is logged; the fills lie inside private
    /// data.
    pub fn answer(&mut self, answer: &Answer<'_>)
        requires { let a = answer.now in
            CanEnd (reply_of a.address a.cause a.policy a.fills.now) self.old }
        ensures { let a = answer.now in
            self.new ≡ answered (reply_of a.address a.cause a.policy a.fills.now) self.old }
    {
        self.waits = false;
        self.reply(answer);
    }

    /// Writes fills, which lie inside private data, over what stands there.
    pub fn fill(&mut self, fills: &[Fill])
        requires { All LiesInData fills.now }
        ensures { self.new ≡ with_fills fills.now self.old }
    {
        self.memory.fill(fills);
    }

    /// The guest's number.
    pub fn number(&self) -> u32
        ensures { result ≡ self.now.state.number }
    {
        self.number
    }

    /// The address of the next unit.
    pub fn pc(&self) -> u32
        ensures { result ≡ self.now.state.pc }
    {
        self.pc
    }

    /// What a register holds, for x0 to x27.
    pub fn register(&self, k: u32) -> u32
        requires { k < FREE_REGISTERS }
        ensures { result ≡ register self.now.state k }
    {
        self.regs[k as usize]
    }

    /// The argument of a service, a0.
    pub fn argument(&self) -> u32
        ensures { result ≡ argument self.now.state }
    {
        self.regs[ARGUMENT as usize]
    }

    /// How many instructions were run.
    pub fn steps(&self) -> u64
        ensures { result ≡ self.now.state.steps }
    {
        self.steps
    }

    /// How many units were run.
    pub fn units(&self) -> u32
        ensures { result ≡ self.now.state.units }
    {
        self.units
    }

    /// What was put.
    pub fn output(&self) -> &[u8]
        ensures { result.now ≡ self.now.state.output }
    {
        self.output.as_slice()
    }

    /// The log.
    pub fn log(&self) -> &[Log]
        ensures entries { result.now ≡ self.now.state.log }
        ensures most { last_policy self.now.state.log ≤ MAX_POLICY }
    {
        self.log.as_slice()
    }

    /// Why the guest stopped, if it has.
    pub fn stop(&self) -> Option<Stop>
        ensures { result ≡ self.now.state.stop }
    {
        self.stop
    }

    /// Whether the guest waits for the answer to an open.
    pub fn waits(&self) -> bool
        ensures { result ≡ self.now.waits }
    {
        self.waits
    }
}
