//! Passes of guests, and their slips.

ghost use Rattle.std.specs.Prelude.{◌≡◌, ℕ, ◌+◌, ◌<◌, IfOk, IfErr, count_by, length};
ghost use Rattle.cfi_slips.specs.Lines.{lines_of};
ghost use Rattle.cfi_slips.specs.Stubs.{slip_by};
ghost use Rattle.cfi_tables.specs.Keeping.{IsFree, let_in, let_out};
ghost use Rattle.cfi_tables.specs.Rule.{AgreesWith};
ghost use Rattle.cfi_tables.specs.Views.{admitted, noted};
ghost use Rattle.cfi_loader.specs.Ledger.{IsLedger};
ghost use Rattle.cfi_loader.specs.Passes.{heard_from, out_of, with_keeping};

use crate::loader::{Loader, LoaderName};
use cfi_slips::Slip;
use cfi_tables::{AdmitFault, Pass, Seen, Tables};

impl<N: LoaderName> Loader<N> {
    /// The pass of the guest of the least number whose pass is not out, as the keeper's, and the guest's slip, which
    /// says what the journal tells in its name.
    ///
    /// Fewer passes are out than the plan has guests, so there is one.
    pub fn admit(&mut self, tables: &Tables<N>) -> Result<(Pass<N>, Slip<N>), AdmitFault>
        requires { out_of self.old < length N.plan.guests }
        ensures ok { IfOk result (λ both. both.0 ≡ admitted N.key self.old.keeping both.0.guest) }
        ensures slip { IfOk result (λ both.
            both.1 ≡ slip_by both.0.guest self.old.course.journal) }
        ensures free { IfOk result (λ both. IsFree self.old.keeping.out both.0.guest) }
        ensures guest { IfOk result (λ both. both.0.guest < length N.plan.guests) }
        ensures out { IfOk result (λ both.
            self.new ≡ with_keeping (let_out N.key both.0.guest self.old.keeping) self.old) }
        ensures never { IfErr result (λ fault. ⊥) }
    {
        let pass = self.keeper.admit(tables)?;
        let slip = self.stubs.issue(pass.guest());
        Ok((pass, slip))
    }

    /// Tells a pass all that the keeper has seen. Its accesses stay. No update finds less of its guest than this has
    /// published by now.
    ///
    /// `law`: what the loader keeps at every moment.
    pub fn note(&mut self, tables: &Tables<N>, pass: &mut Pass<N>)
        ensures pass { pass.new ≡ noted N.key self.old.keeping pass.old }
        ensures agrees { AgreesWith N.key
            self.old.keeping.entries self.old.keeping.refusals pass.old.sight }
        ensures kept { self.new ≡ heard_from pass.old self.old }
        ensures law { IsLedger N.key N.plan N.modules self.old }
    {
        self.keeper.note(tables, pass);
    }

    /// Takes a guest's pass and its slip back, and answers what is in force.
    ///
    /// `says`: the slip has said what the journal tells in the guest's name.
    pub fn release(&mut self, tables: &Tables<N>, pass: Pass<N>, slip: Slip<N>) -> Seen
        requires { slip.guest ≡ pass.guest }
        ensures says { slip.lines ≡ lines_of slip.guest self.old.course.journal }
        ensures agrees { AgreesWith N.key
            self.old.keeping.entries self.old.keeping.refusals pass.sight }
        ensures out { self.new ≡ with_keeping (let_in pass.guest self.old.keeping) self.old }
        ensures epoch { result.epoch ≡ self.old.course.end.epoch }
        ensures policy { result.policy ≡ self.old.course.end.policy }
    {
        self.stubs.take(slip);
        self.keeper.release(tables, pass)
    }
}
