// What a guest's parts hold.

ghost use Rattle.std.specs.Prelude.{◌≡◌, ◌<◌, ◌≤◌};
ghost use Rattle.cfi_word.specs.declared.limits.TheConstants.{MAX_POLICY, MAX_OPENS};
ghost use Rattle.cfi_model.specs.Log.{last_policy, opens};
ghost use Rattle.cfi_model.specs.Pages.{page_count};
ghost use Rattle.cfi_model.specs.Service.{argument};
ghost use Rattle.cfi_model.specs.Raw.{reg};

use crate::guest::Guest;
use cfi_model::Wait;
use cfi_unit::{Log, Stop};
use cfi_word::services::ARGUMENT;

impl Guest {
    /// The guest's number.
    pub fn number(&self) -> u32
        ensures { result ≡ self.now.base.number }
    {
        self.number
    }

    /// The address of the next instruction.
    #[inline(always)]
    pub fn pc(&self) -> u32
        ensures { result ≡ self.now.base.pc }
    {
        self.pc
    }

    /// What a register holds, for x0 to x31.
    #[inline(always)]
    pub fn register(&self, k: u32) -> u32
        requires { k < 32 }
        ensures { result ≡ reg self.now k }
    {
        self.regs.read(k)
    }

    /// The argument of a service, a0.
    #[inline(always)]
    pub fn argument(&self) -> u32
        ensures { result ≡ argument self.now.base }
    {
        self.regs.read(ARGUMENT)
    }

    /// How many instructions were fetched.
    #[inline(always)]
    pub fn steps(&self) -> u32
        ensures { result ≡ self.now.base.steps }
    {
        self.steps
    }

    /// How many units were run.
    pub fn units(&self) -> u32
        ensures { result ≡ self.now.base.units }
    {
        self.steps - self.inner
    }

    /// What was put.
    pub fn output(&self) -> &[u8]
        ensures { result.now ≡ self.now.base.output }
    {
        self.output.as_slice()
    }

    /// The log.
    pub fn log(&self) -> &[Log]
        ensures entries { result.now ≡ self.now.base.log }
        ensures most { last_policy self.now.base.log ≤ MAX_POLICY }
    {
        self.log.as_slice()
    }

    /// How many opens are logged, at most `MAX_OPENS`.
    pub fn opens(&self) -> u32
        ensures count { result ≡ opens self.now.base.log }
        ensures most { result ≤ MAX_OPENS }
    {
        self.log.opens()
    }

    /// How many pages of private data are made: those of which a byte lies in a fill or a store.
    pub fn pages(&self) -> u32
        ensures { result ≡ page_count self.now.base.memory.made }
    {
        self.memory.pages()
    }

    /// Why the guest stopped, if it has.
    #[inline(always)]
    pub fn stop(&self) -> Option<Stop>
        ensures { result ≡ self.now.base.stop }
    {
        self.stop
    }

    /// What the guest waits for, if it waits.
    #[inline(always)]
    pub fn waits(&self) -> Option<Wait>
        ensures { result ≡ self.now.waits }
    {
        self.waits
    }
}
