// What the services do.

ghost use Rattle.std.specs.Prelude.{◌≡◌, ◌+◌, ◌<◌, ◌≤◌, ◌^◌, IsTrue, true, false, nat_lt, if◌then◌else◌};
ghost use Rattle.cfi_unit.specs.declared.unit.Unit.TheVariants as units;
ghost use Rattle.cfi_model.specs.State.{after};
ghost use Rattle.cfi_model.specs.Service.{IsAnswer, Service, Ends, Puts, Quiets, Opens, Unknown, served, reply_of, too_many};
ghost use Rattle.cfi_model.specs.Effect.{going_to};
ghost use Rattle.cfi_model.specs.Log.{opens};
ghost use Rattle.cfi_word.specs.declared.limits.TheConstants.{MAX_OPENS};
ghost use Rattle.cfi_model.specs.Plain.{unit_of};

use crate::plain::Plain;
use cfi_unit::{Answer, Stop};
use cfi_word::limits::{MAX_OPENS, MAX_OUTPUT};
use cfi_word::services::{ARGUMENT, CAUSE, EXIT, OPEN, PUT, QUIET, REFUSED, SERVICE, TOO_MANY};

impl Plain {
    // Runs a service unit: an open waits for its answer, unless no more are logged.
    pub(crate) fn service(&mut self)
        requires going { self.old.waits ≡ false }
        requires few { self.old.state.units + 1 < 2 ^ 32 }
        ensures { self.new ≡ unit_of units.Service 0 (λ slot target. false) self.old }
    {
        match self.register(SERVICE) {
            EXIT => self.exit(),
            PUT => self.put(),
            QUIET => self.proceed(),
            OPEN => self.ask(),
            _ => self.refuse(),
        }
    }

    // Ends a service unit.
    fn proceed(&mut self)
        requires going { self.old.waits ≡ false }
        requires few { self.old.state.units + 1 < 2 ^ 32 }
        ensures { let s = self.old.state in self.new ≡ record self.old {
          state = going_to (after 4 s.pc) 1 s;
        } }
    {
        self.go_to(self.pc.wrapping_add(4));
    }

    fn exit(&mut self)
        requires going { self.old.waits ≡ false }
        requires few { self.old.state.units + 1 < 2 ^ 32 }
        ensures { let s = self.old.state in self.new ≡ record self.old {
          state = going_to (after 4 s.pc) 1 (served Ends too_many s);
        } }
    {
        let code = self.argument();
        self.stop = Some(Stop::Exit(code));
        self.proceed();
    }

    fn put(&mut self)
        requires going { self.old.waits ≡ false }
        requires few { self.old.state.units + 1 < 2 ^ 32 }
        ensures { let s = self.old.state in self.new ≡ record self.old {
          state = going_to (after 4 s.pc) 1 (served Puts too_many s);
        } }
    {
        if self.output.len() < MAX_OUTPUT {
            let byte = (self.argument() % 256) as u8;
            self.output.push(byte);
            self.regs[ARGUMENT as usize] = 1;
        } else {
            self.regs[ARGUMENT as usize] = 0;
        }
        self.proceed();
    }

    fn refuse(&mut self)
        requires going { self.old.waits ≡ false }
        requires few { self.old.state.units + 1 < 2 ^ 32 }
        ensures { let s = self.old.state in self.new ≡ record self.old {
          state = going_to (after 4 s.pc) 1 (served Unknown too_many s);
        } }
    {
        self.regs[ARGUMENT as usize] = REFUSED;
        self.proceed();
    }

    fn ask(&mut self)
        requires going { self.old.waits ≡ false }
        requires few { self.old.state.units + 1 < 2 ^ 32 }
        ensures asks { IsTrue (nat_lt (opens self.old.state.log) MAX_OPENS) →
            self.new ≡ record self.old { waits = true } }
        ensures full { let s = self.old.state in nat_lt (opens s.log) MAX_OPENS ≡ false →
            self.new ≡ record self.old {
              state = going_to (after 4 s.pc) 1 (served Opens too_many s);
            } }
    {
        if self.log.opens() < MAX_OPENS {
            self.waits = true;
            return;
        }
        let answer = Answer {
            address: 0,
            cause: TOO_MANY,
            policy: 0,
            fills: &[],
        };
        self.reply(&answer);
    }

    // Ends an open with its answer.
    pub(crate) fn reply(&mut self, answer: &Answer<'_>)
        requires answer { let a = answer.now in
            IsAnswer (reply_of a.address a.cause a.policy a.fills.now) self.old.state }
        requires going { self.old.waits ≡ false }
        requires few { self.old.state.units + 1 < 2 ^ 32 }
        ensures { let a = answer.now in let s = self.old.state in self.new ≡ record self.old {
          state = going_to (after 4 s.pc) 1
              (served Opens (reply_of a.address a.cause a.policy a.fills.now) s);
        } }
    {
        let module = self.argument();
        match answer.cause {
            0 => {
                self.regs[ARGUMENT as usize] = answer.address;
                self.memory.fill(answer.fills);
                self.log.open(module, answer.address, answer.policy);
            }
            TOO_MANY => self.regs[ARGUMENT as usize] = 0,
            cause => {
                self.regs[ARGUMENT as usize] = 0;
                self.log.cause(module, cause);
            }
        }
        self.regs[CAUSE as usize] = answer.cause;
        self.proceed();
    }
}
