//! Judging a report of a file's run.

ghost use Rattle.std.specs.Prelude.{◌≡◌, ◌≤◌, ◌∷◌, [], true, false, length, All, IfNone, IfOk, IfSome};
ghost use Rattle.cfi_commands.specs.Modules.{IsShortFile};
ghost use Rattle.cfi_judge.specs.declared.fault.JudgeFault.TheVariants.{Memory};
ghost use Rattle.cfi_ledger.specs.Plans.{CanStart};
ghost use Rattle.cfi_plan.specs.Plan.{IsPlan};
ghost use Rattle.cfi_request.specs.declared.command.Command.TheVariants as commands;
ghost use Rattle.cfi_request.specs.Plans.{begins_as_plan, judged_files};
ghost use Rattle.cfi_request.specs.Reading.{IsShort};
ghost use Rattle.cfi_top.specs.declared.answer.Answer.TheVariants as answers;
ghost use Rattle.cfi_top.specs.inner.Judging.{IsFoundJudged, IsReportRefused, IsTextJudged};
ghost use Rattle.cfi_top.specs.Judging.{fault_of, valid_line};
ghost use Rattle.cfi_top.specs.Outcome.{IsWorked};
ghost use Rattle.cfi_word.specs.declared.limits.TheConstants.{MAX_FILE_BYTES};

use crate::answer::Answer;
use crate::refused::{module_refused, plan_refused};
use cfi_aux::Module;
use cfi_bare::{BareFault, read_bare};
use cfi_commands::{Refusal, ReportPart, read_modules};
use cfi_judge::{JudgeFault, judge};
use cfi_plan::{Plan, bare_plan, read_plan};
use cfi_report::{ReportFault, read_report};
use cfi_request::{begins_as_plan, only};
use cfi_values::{Bytes, Items, Text};
use std::alloc::{AllocError, Global};

// The part of a report that is at fault; none where memory was out.
fn part_of(fault: JudgeFault) -> Option<ReportPart>
    ensures some { IfSome result (λ part. fault_of part ≡ fault) }
    ensures none { IfNone result (fault ≡ Memory) }
{
    match fault {
        JudgeFault::Modules => Some(ReportPart::Modules),
        JudgeFault::Journal(line) => Some(ReportPart::Journal(line)),
        JudgeFault::Script => Some(ReportPart::Script),
        JudgeFault::Guests => Some(ReportPart::Guests),
        JudgeFault::Log(guest) => Some(ReportPart::Log(guest)),
        JudgeFault::Replay(guest) => Some(ReportPart::Replay(guest)),
        JudgeFault::Steps(guest) => Some(ReportPart::Steps(guest)),
        JudgeFault::Memory => None,
    }
}

// The refusal of a text that is no report.
fn report_refused(report: Text, fault: ReportFault) -> Result<Answer, AllocError>
    ensures { IfOk result (IsReportRefused report fault) }
{
    match fault {
        ReportFault::Syntax(line) => Ok(Answer::Refused(report, Refusal::Report(line))),
        ReportFault::Memory => Err(AllocError),
    }
}

// The answer to a report that is valid.
fn valid(alloc: Global) -> Result<Answer, AllocError>
    ensures { IfOk result (λ answer. answer ≡ answers.Print valid_line) }
{
    let line = "valid\n".to_string(alloc)?;
    Ok(Answer::Print(Bytes::from_vec(line.into_bytes())))
}

// Judges the report of this text against a plan and its modules.
fn judge_text(
    alloc: Global,
    report: Text,
    plan: &Plan,
    modules: &[Module],
    text: &[u8],
) -> Result<Answer, AllocError>
    requires can { CanStart plan.now modules.now }
    requires short { length text.now ≤ MAX_FILE_BYTES }
    ensures { IfOk result (IsTextJudged report plan.now modules.now text.now) }
{
    let found = match read_report(alloc, text) {
        Ok(found) => found,
        Err(fault) => return report_refused(report, fault),
    };
    match judge(alloc, plan, modules, &found) {
        Ok(()) => valid(alloc),
        Err(fault) => match part_of(fault) {
            Some(part) => Ok(Answer::Refused(report, Refusal::Judge(part))),
            None => Err(AllocError),
        },
    }
}

// Judges the report of this text against a plan that is read, with the modules of these files.
fn judge_found(
    alloc: Global,
    report: Text,
    found: &Plan,
    files: Items<Bytes>,
    text: &[u8],
) -> Result<Answer, AllocError>
    requires plan { IsPlan found.now }
    requires count { length files ≡ length found.now.modules }
    requires small { All IsShortFile files }
    requires short { length text.now ≤ MAX_FILE_BYTES }
    ensures { IfOk result (IsFoundJudged report found.now files text.now) }
{
    match read_modules(alloc, files) {
        Ok(modules) => judge_text(alloc, report, found, modules.as_slice(), text),
        Err(fault) => module_refused(alloc, found.modules.as_slice(), fault),
    }
}

// Judges a report of the run of the plan of these bytes.
fn judge_plan(
    alloc: Global,
    input: Text,
    report: Text,
    bytes: &[u8],
    others: Items<Bytes>,
) -> Result<Answer, AllocError>
    requires begins { begins_as_plan bytes.now ≡ true }
    requires short { length bytes.now ≤ MAX_FILE_BYTES }
    requires named { length others ≡ length (judged_files bytes.now report) }
    requires small { All IsShort others }
    ensures { IfOk result (IsWorked (commands.Judge input report) (bytes.now ∷ []) others) }
{
    let found = match read_plan(alloc, bytes) {
        Ok(found) => found,
        Err(fault) => return plan_refused(input, fault),
    };
    let mut files = others.into_vec();
    let Some(last) = files.pop() else {
        unreachable!();
    };
    judge_found(
        alloc,
        report,
        &found,
        Items::from_vec(files),
        last.as_slice(),
    )
}

// Judges a report of the run of the bare file of these bytes.
fn judge_bare(
    alloc: Global,
    input: Text,
    report: Text,
    bytes: &[u8],
    others: Items<Bytes>,
) -> Result<Answer, AllocError>
    requires begins { begins_as_plan bytes.now ≡ false }
    requires short { length bytes.now ≤ MAX_FILE_BYTES }
    requires named { length others ≡ length (judged_files bytes.now report) }
    requires small { All IsShort others }
    ensures { IfOk result (IsWorked (commands.Judge input report) (bytes.now ∷ []) others) }
{
    let made = match read_bare(alloc, bytes) {
        Ok(made) => made,
        Err(BareFault::Memory) => return Err(AllocError),
        Err(fault) => return Ok(Answer::Refused(input, Refusal::Bare(fault))),
    };
    let plan = bare_plan(alloc)?;
    let mut modules = Vec::new(alloc);
    modules.push(made)?;
    judge_text(alloc, report, &plan, modules.as_slice(), only(&others))
}

/// Judges a report of the run of a file: of a plan, or of a bare file, which stands for a plan of its one module.
///
/// `others` are the bytes of the files of the plan's modules and, at the end, of the report.
pub fn judge_file(
    alloc: Global,
    input: Text,
    report: Text,
    bytes: &[u8],
    others: Items<Bytes>,
) -> Result<Answer, AllocError>
    requires short { length bytes.now ≤ MAX_FILE_BYTES }
    requires named { length others ≡ length (judged_files bytes.now report) }
    requires small { All IsShort others }
    ensures { IfOk result (IsWorked (commands.Judge input report) (bytes.now ∷ []) others) }
{
    if begins_as_plan(bytes) {
        return judge_plan(alloc, input, report, bytes, others);
    }
    judge_bare(alloc, input, report, bytes, others)
}
