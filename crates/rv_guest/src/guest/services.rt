// How services end, and how a guest runs out of fuel.

ghost use Rattle.std.specs.Prelude.{◌≡◌, ◌+◌, ◌<◌, ◌≤◌, ◌^◌, Some, None};
ghost use Rattle.cfi_word.specs.declared.services.TheConstants.{EXIT, PUT};
ghost use Rattle.cfi_model.specs.Service.{reply_of, too_many};
ghost use Rattle.cfi_model.specs.Run.{serve_of};
ghost use Rattle.rv_guest.specs.Guest.{MayAnswer, WaitsElse, WaitsIn, is_quiet, is_spent, spent};

use crate::guest::Guest;
use cfi_model::Wait;
use cfi_unit::{Answer, Stop};
use cfi_word::limits::MAX_OUTPUT;
use cfi_word::services::{ARGUMENT, CAUSE, EXIT, PUT, QUIET, REFUSED, TOO_MANY};

impl Guest {
    /// Ends an open with its answer.
    ///
    /// The policy is at most `MAX_POLICY` and not below the last one that is logged, the fills lie inside private data,
    /// and where `MAX_OPENS` opens are logged the cause is `TOO_MANY`.
    pub fn answer(&mut self, answer: &Answer<'_>)
        requires { let a = answer.now in
            MayAnswer (reply_of a.address a.cause a.policy a.fills.now) self.old }
        ensures { let a = answer.now in
            self.new ≡ serve_of self.old (reply_of a.address a.cause a.policy a.fills.now) }
    {
        let module = self.argument();
        // The answer's policy may be above that of the kept Tary word.
        self.tary = None;
        match answer.cause {
            0 => {
                self.regs.write(ARGUMENT, answer.address);
                self.memory.fill(answer.fills);
                self.log.open(module, answer.address, answer.policy);
            }
            TOO_MANY => self.regs.write(ARGUMENT, 0),
            cause => {
                self.regs.write(ARGUMENT, 0);
                self.log.cause(module, cause);
            }
        }
        self.regs.write(CAUSE, answer.cause);
        self.served();
    }

    // Counts a service as a unit.
    #[inline(always)]
    fn served(&mut self)
        requires { WaitsIn self.old.waits }
        ensures { self.new ≡ record self.old {
          base = record self.old.base { units = self.old.base.units + 1 };
          bary = None;
          tary = None;
          waits = None;
        } }
    {
        self.inner -= 1;
        self.bary = None;
        self.tary = None;
        self.waits = None;
    }

    /// Ends an exit: the guest stops with its argument as the code.
    pub fn exit(&mut self)
        requires { self.old.waits ≡ Some (Wait.Service EXIT) }
        ensures { self.new ≡ serve_of self.old too_many }
    {
        let code = self.argument();
        self.stop = Some(Stop::Exit(code));
        self.served();
    }

    /// Ends a put: the argument's low byte is appended, where the output has fewer than `MAX_OUTPUT` bytes.
    pub fn put(&mut self)
        requires { self.old.waits ≡ Some (Wait.Service PUT) }
        ensures { self.new ≡ serve_of self.old too_many }
    {
        if self.output.len() < MAX_OUTPUT {
            let byte = (self.argument() % 256) as u8;
            self.output.push(byte);
            self.regs.write(ARGUMENT, 1);
        } else {
            self.regs.write(ARGUMENT, 0);
        }
        self.served();
    }

    /// Ends every other service: a quiet does nothing, and one that is not there answers `REFUSED`.
    pub fn proceed(&mut self)
        requires { WaitsElse self.old.waits }
        ensures { self.new ≡ serve_of self.old too_many }
    {
        if !self.is_quiet() {
            self.regs.write(ARGUMENT, REFUSED);
        }
        self.served();
    }

    fn is_quiet(&self) -> bool
        ensures { result ≡ is_quiet self.now.waits }
    {
        match self.waits {
            Some(Wait::Service(number)) => number == QUIET,
            _ => false,
        }
    }

    /// Stops the guest with Fuel where it has not stopped and has fetched `fuel` instructions, and says whether it
    /// did.
    #[inline(always)]
    pub fn spend(&mut self, fuel: u32) -> bool
        ensures state { self.new ≡ spent fuel self.old }
        ensures stopped { result ≡ is_spent fuel self.old }
    {
        if self.stop.is_none() && self.steps == fuel {
            self.stop = Some(Stop::Fuel);
            return true;
        }
        false
    }
}
