//! The log of a guest, with the causes of its opens.

ghost use Rattle.std.specs.Prelude.{◌≡◌, ◌↔◌, ◌<◌, ◌≤◌, ℕ, List, IfNone, IfSome, IsTrue, length};
ghost use Rattle.cfi_judge.specs.Judge.{HasItsLog, IsFirstPart};
ghost use Rattle.cfi_judge.specs.inner.Causes.{AreVersionsTold, HasCauseApart};
ghost use Rattle.cfi_judge.specs.inner.Causes.{HasCauses, HasCausesApart, IsCausedApart};
ghost use Rattle.cfi_judge.specs.inner.Trial.{IsTrial, course_in, meant};
ghost use Rattle.cfi_judge.specs.inner.Log.{HasRisen};
ghost use Rattle.cfi_judge.specs.inner.Rows.{IsOfKind};
ghost use Rattle.cfi_judge.specs.inner.Span.{IsSpan};
ghost use Rattle.cfi_unit.specs.declared.log.Log.{Log as AnyLog};
ghost use Rattle.cfi_valid.specs.Log.{HoldsInSpan, IsCaused, IsLogged, why_of};
ghost use Rattle.cfi_valid.specs.Log.{EpochsSpent, VersionsSpent};
ghost use Rattle.cfi_valid.specs.Valid.{OfEach};
ghost use Rattle.cfi_word.specs.declared.limits.TheConstants.{GUESTS};

use crate::causes::versions_are_told;
use crate::log::{log_opens, log_rises, policy_after};
use crate::meeting::Kind;
use crate::reached::Reached;
use crate::span::{Span, ahead_of, lacks_function};
use cfi_aux::Module;
use cfi_plan::Plan;
use cfi_report::{GuestPart, Report};
use cfi_unit::Log;
use cfi_valid::{EPOCHS_SPENT, MODULES_FULL, NOT_PLACED, NOT_VERIFIED, RETIRED, VERSIONS_SPENT};
use cfi_word::services::{NO_FUNCTION, NO_MODULE};

/// Against what the guests of a report are judged.
#[derive(Drop)]
pub(crate) struct Trial<'a> {
    /// The plan.
    pub plan: &'a Plan,
    /// Its modules, one a line.
    pub modules: &'a [Module],
    /// The report.
    pub report: &'a Report,
    /// The state to which its journal leads.
    pub end: &'a Reached,
}

// The log of a guest.
#[derive(Drop)]
struct GuestLog<'a> {
    // The guest's number.
    guest: u32,
    // Its log.
    log: &'a [Log],
}

// Why an open was refused.
#[derive(Clone, Copy)]
enum Why {
    NoModule,
    ModulesFull,
    NotPlaced,
    NotVerified,
    VersionsSpent,
    EpochsSpent,
    NoFunction,
    Retired,
    Unlogged,
}

// The cause of a number.
fn why_of(cause: u32) -> Why
    ensures { meant result ≡ why_of cause }
{
    match cause {
        NO_MODULE => Why::NoModule,
        MODULES_FULL => Why::ModulesFull,
        NOT_PLACED => Why::NotPlaced,
        NOT_VERIFIED => Why::NotVerified,
        VERSIONS_SPENT => Why::VersionsSpent,
        EPOCHS_SPENT => Why::EpochsSpent,
        NO_FUNCTION => Why::NoFunction,
        RETIRED => Why::Retired,
        _ => Why::Unlogged,
    }
}

impl Trial<'_> {
    // Behind the modules of some policy of the span of an entry, beside the live ones, a module meets this.
    fn meets_in(&self, span: Span, number: u32, kind: Kind) -> bool
        requires { IsTrial self.now }
        ensures { (log : List AnyLog) (at : ℕ) → HasRisen self.now.end.now.policy log →
            IsSpan self.now.end.now.policy log at span → IsTrue result ↔
            HoldsInSpan (course_in self.now) log at (λ loaded live.
            IsOfKind self.now.plan.now.code_words self.now.modules.now loaded live number kind) }
    {
        self.end.has_met(span.least, span.most, number, kind)
    }

    // The policy in force is in the span, no epoch is left, and the module joins.
    fn is_spent(&self, span: Span, number: u32) -> bool
        requires { IsTrial self.now }
        ensures { (guest : ℕ) (log : List AnyLog) (at : ℕ) →
            HasRisen self.now.end.now.policy log →
            IsSpan self.now.end.now.policy log at span → IsTrue result ↔
            IsCaused (course_in self.now) guest log at number EpochsSpent }
    {
        let force = self.end.policy;
        if !self.end.is_last_epoch() {
            return false;
        }
        if span.most < force {
            return false;
        }
        self.end.has_met(force, force, number, Kind::Joins)
    }

    // The cause of an entry holds; where it is that versions are spent, of a module of the plan, that is not asked.
    fn is_caused(&self, of: &GuestLog<'_>, span: Span, number: u32, cause: u32) -> bool
        requires trial { IsTrial self.now }
        requires risen { HasRisen self.now.end.now.policy of.now.log.now }
        ensures { (at : ℕ) → IsSpan self.now.end.now.policy of.now.log.now at span →
            IsTrue result ↔ IsCausedApart (course_in self.now) of.now.guest of.now.log.now
            at number (why_of cause) }
    {
        match why_of(cause) {
            Why::NoModule => self.plan.modules.len() <= number as usize,
            Why::ModulesFull => self.meets_in(span, number, Kind::Full),
            Why::NotPlaced => self.meets_in(span, number, Kind::Unplaced),
            Why::NotVerified => self.meets_in(span, number, Kind::Unverified),
            Why::VersionsSpent => {
                (number as usize) < self.plan.modules.len() || self.tells_versions(of, number)
            }
            Why::EpochsSpent => self.is_spent(span, number),
            Why::NoFunction => lacks_function(self.end, span, number),
            Why::Retired => self.meets_in(span, number, Kind::Gone),
            Why::Unlogged => false,
        }
    }

    // The journal tells of as many loads of the module that came too many versions ahead as the log.
    fn tells_versions(&self, of: &GuestLog<'_>, number: u32) -> bool
        ensures { IsTrue result ↔ IsCaused (course_in self.now) of.now.guest of.now.log.now
            0 number VersionsSpent }
    {
        versions_are_told(of.guest, number, of.log, self.report.journal.as_slice())
    }

    // What the entry at a place says of a cause holds, but for spent versions of a module of the plan.
    fn has_cause(&self, of: &GuestLog<'_>, at: usize, span: Span) -> bool
        requires trial { IsTrial self.now }
        requires risen { HasRisen self.now.end.now.policy of.now.log.now }
        requires within { at < length of.now.log.now }
        requires span { IsSpan self.now.end.now.policy of.now.log.now at span }
        ensures { IsTrue result ↔ HasCauseApart (course_in self.now) of.now.guest
            of.now.log.now at }
    {
        match &of.log[at] {
            Log::Pick { .. } => true,
            Log::Open { .. } => true,
            Log::Cause { module, cause } => self.is_caused(of, span, *module, *cause),
        }
    }

    // Each cause holds, but for those. The log is gone through once.
    fn has_other_causes(&self, of: &GuestLog<'_>) -> bool
        requires trial { IsTrial self.now }
        requires risen { HasRisen self.now.end.now.policy of.now.log.now }
        ensures { IsTrue result ↔ HasCausesApart (course_in self.now) of.now.guest
            of.now.log.now }
    {
        let force = self.end.policy;
        let mut before = 0;
        let mut ahead = ahead_of(force, of.log, 0);
        for at in 0..of.log.len() {
            ahead = ahead.or_from(force, of.log, at + 1);
            let span = Span {
                least: before,
                most: ahead.policy,
            };
            if !self.has_cause(of, at, span) {
                return false;
            }
            before = policy_after(before, &of.log[at]);
        }
        true
    }

    // The versions are told of each module of the plan. They are counted once a module.
    fn has_versions(&self, of: &GuestLog<'_>) -> bool
        requires { IsTrial self.now }
        ensures { IsTrue result ↔ AreVersionsTold (course_in self.now) of.now.guest
            of.now.log.now }
    {
        for number in 0..self.plan.modules.len() {
            if !self.tells_versions(of, number as u32) {
                return false;
            }
        }
        true
    }

    // Each cause holds.
    fn has_causes(&self, of: &GuestLog<'_>) -> bool
        requires trial { IsTrial self.now }
        requires risen { HasRisen self.now.end.now.policy of.now.log.now }
        ensures { IsTrue result ↔ HasCauses (course_in self.now) of.now.guest of.now.log.now }
    {
        if !self.has_other_causes(of) {
            return false;
        }
        self.has_versions(of)
    }

    // The log of a guest fits the run.
    fn is_logged(&self, of: &GuestLog<'_>) -> bool
        requires { IsTrial self.now }
        ensures { IsTrue result ↔ IsLogged (course_in self.now) of.now.guest of.now.log.now }
    {
        if !log_rises(self.end.policy, of.log) {
            return false;
        }
        if !log_opens(&self.end.roster, of.log) {
            return false;
        }
        self.has_causes(of)
    }

    // The log of the part of a number does.
    fn is_part_logged(&self, number: usize, part: &GuestPart) -> bool
        requires trial { IsTrial self.now }
        requires few { number < GUESTS }
        ensures { IsTrue result ↔ HasItsLog (course_in self.now) number part.now }
    {
        self.is_logged(&GuestLog {
            guest: number as u32,
            log: part.log.as_slice(),
        })
    }

    /// The first guest of the report whose log does not fit the run.
    pub(crate) fn first_unlogged(&self) -> Option<usize>
        requires trial { IsTrial self.now }
        requires few { length self.now.report.now.guests ≤ GUESTS }
        ensures some { IfSome result
            (IsFirstPart self.now.report.now (HasItsLog (course_in self.now))) }
        ensures none { IfNone result
            (OfEach self.now.report.now (HasItsLog (course_in self.now))) }
    {
        let parts = self.report.guests.as_slice();
        for number in 0..parts.len() {
            if !self.is_part_logged(number, &parts[number]) {
                return Some(number);
            }
        }
        None
    }
}
