//! The replays of the guests of a report, and their steps.

ghost use Rattle.std.specs.Prelude.{◌≡◌, IfErr, IfOk, OnOk};
ghost use Rattle.cfi_judge.specs.Judge.{HoldsToLogs, IsJudgeFault};
ghost use Rattle.cfi_judge.specs.Reached.{state_of};
ghost use Rattle.cfi_judge.specs.inner.Runs.{HasOutcome, IsSetIn, kept_with};
ghost use Rattle.cfi_judge.specs.inner.Trial.{IsTrial};
ghost use Rattle.cfi_replay.specs.Setting.{CanReplay, ComesIn, IsCourseIn, IsSetting};
ghost use Rattle.cfi_valid.specs.Course.{Course};
ghost use Rattle.cfi_valid.specs.Valid.{IsValidReport};

use crate::fault::JudgeFault;
use crate::steps::has_steps;
use crate::trial::Trial;
use cfi_labels::laws::journals_load_in_order;
use cfi_labels::{policy_cells, policy_labels, run_code};
use cfi_model::Plain;
use cfi_replay::{Setting, has_ended, replayed};
use cfi_report::GuestPart;
use cfi_word::Layout;
use std::alloc::{AllocError, Global};

// What the replay of a guest comes to.
#[derive(Clone, Copy)]
enum Outcome {
    // It does not come to what the part says.
    Other,
    // It does, and the steps of the part do not fit.
    Steps,
    // It does, with its steps.
    Same,
}

// What a part comes to whose units come to the state of a machine.
fn outcome_at(setting: &Setting<'_>, epoch: u32, part: &GuestPart, machine: &Plain) -> Outcome
    requires { ComesIn setting.now part.now machine.now.state }
    ensures { (c : Course) → IsCourseIn setting.now c → c.end.epoch ≡ epoch →
        HasOutcome c part.now result }
{
    if !has_ended(machine, part) {
        return Outcome::Other;
    }
    if !has_steps(setting.plan, epoch, machine, setting.code, part) {
        return Outcome::Steps;
    }
    Outcome::Same
}

// What the replay of a part comes to.
fn outcome_of(
    alloc: Global,
    setting: &Setting<'_>,
    epoch: u32,
    part: &GuestPart,
) -> Result<Outcome, AllocError>
    requires setting { IsSetting setting.now }
    requires can { CanReplay setting.now part.now.log }
    ensures { IfOk result (λ outcome. (c : Course) → IsCourseIn setting.now c →
        c.end.epoch ≡ epoch → HasOutcome c part.now outcome) }
{
    let found = replayed(alloc, setting, part)?;
    match found {
        Some(machine) => Ok(outcome_at(setting, epoch, part, &machine)),
        None => Ok(Outcome::Other),
    }
}

// The first guest whose steps do not fit, with one guest more; a replay that comes to something else ends it.
fn kept_with(
    kept: Option<usize>,
    number: usize,
    outcome: Outcome,
) -> Result<Option<usize>, JudgeFault>
    ensures { result ≡ kept_with kept number outcome }
{
    match outcome {
        Outcome::Other => Err(JudgeFault::Replay(number)),
        Outcome::Steps => match kept {
            None => Ok(Some(number)),
            Some(first) => Ok(Some(first)),
        },
        Outcome::Same => Ok(kept),
    }
}

impl Trial<'_> {
    // Replays each part. The first whose replay comes to something else, or else the first whose steps do not fit.
    fn replay_in(&self, alloc: Global, setting: &Setting<'_>) -> Result<(), JudgeFault>
        requires trial { IsTrial self.now }
        requires setting { IsSetting setting.now }
        requires here { IsSetIn self.now setting.now }
        requires before { HoldsToLogs self.now.plan.now self.now.modules.now self.now.report.now
            (state_of self.now.end.now) }
        ensures ok { OnOk result (IsValidReport self.now.plan.now self.now.modules.now
            self.now.report.now) }
        ensures fault { IfErr result (IsJudgeFault self.now.plan.now self.now.modules.now
            self.now.report.now) }
    {
        let parts = self.report.guests.as_slice();
        let mut kept = None;
        for number in 0..parts.len() {
            let outcome = outcome_of(alloc, setting, self.end.epoch, &parts[number])?;
            kept = kept_with(kept, number, outcome)?;
        }
        match kept {
            Some(first) => Err(JudgeFault::Steps(first)),
            None => Ok(()),
        }
    }

    /// Replays the guests of a report whose logs fit. The first whose replay comes to something else, or else the first
    /// whose steps do not fit.
    ///
    /// The code of all that was loaded and the labels and cells of each policy are made once.
    pub(crate) fn replay(&self, alloc: Global) -> Result<(), JudgeFault>
        requires trial { IsTrial self.now }
        requires before { HoldsToLogs self.now.plan.now self.now.modules.now self.now.report.now
            (state_of self.now.end.now) }
        ensures ok { OnOk result (IsValidReport self.now.plan.now self.now.modules.now
            self.now.report.now) }
        ensures fault { IfErr result (IsJudgeFault self.now.plan.now self.now.modules.now
            self.now.report.now) }
    {
        journals_load_in_order();
        let layout = Layout::new(self.plan.code_words).unwrap();
        let roster = &self.end.roster;
        let code = run_code(alloc, roster, &layout)?;
        let labels = policy_labels(alloc, roster, &layout, self.end.policy)?;
        let cells = policy_cells(alloc, roster, self.end.policy)?;
        let setting = Setting {
            plan: self.plan,
            roster,
            force: self.end.policy,
            code: code.as_slice(),
            labels: labels.as_slice(),
            cells: cells.as_slice(),
        };
        self.replay_in(alloc, &setting)
    }
}
