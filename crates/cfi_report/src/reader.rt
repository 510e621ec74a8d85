ghost use Rattle.std.specs.Prelude.{◌≡◌, ◌^◌, ◌<◌, length, IfOk, IfErr, IfSome, IfNone};
ghost use Rattle.cfi_report.specs.inner.Next.{IsNext, HasNoNext};
ghost use Rattle.cfi_report.specs.Report.{report_text, IsReport, IsCause, AnswersReport};

use crate::draft::Draft;
use crate::fault::ReportFault;
use crate::form::read_form;
use crate::line::Line;
use crate::report::Report;
use crate::stage::{Stage, may_follow};
use crate::words::cut;
use std::alloc::{AllocError, Global};

/// The report that the text is, byte for byte as `write_report` writes it.
///
/// `Syntax` has the number of the first line, from 1, that is not as it would be written there, or is missing.
pub fn read_report(alloc: Global, text: &[u8]) -> Result<Report, ReportFault>
    requires { length text.now < 2 ^ 32 }
    ensures ok { IfOk result IsReport }
    ensures text { IfOk result (λ report. text.now ≡ report_text report) }
    ensures only { (report : Report) → IsReport report → text.now ≡ report_text report →
        AnswersReport result report }
    ensures fault { IfErr result (IsCause text.now) }
{
    let mut draft = Draft::new(alloc);
    let mut rest = text;
    let mut number = 1;
    while !draft.is_whole() {
        let Some((line, after)) = next_line(alloc, draft.stage(), rest)? else {
            return Err(ReportFault::Syntax(number));
        };
        draft.add(alloc, line)?;
        rest = after;
        number += 1;
    }
    if !rest.is_empty() {
        return Err(ReportFault::Syntax(number));
    }
    Ok(draft.into_report())
}

// The next line, if it may follow, and what comes after it.
fn next_line<'a>(
    alloc: Global,
    stage: Stage,
    text: &'a [u8],
) -> Result<Option<(Line, &'a [u8])>, AllocError>
    ensures found { IfOk result (λ found.
        IfSome found (λ next. IsNext stage text.now next.0 next.1.now)) }
    ensures none { IfOk result (λ found. IfNone found (HasNoNext stage text.now)) }
{
    let Some((bare, rest)) = cut(text, b'\n') else {
        return Ok(None);
    };
    match read_form(alloc, bare)? {
        Some(line) => {
            if !may_follow(stage, &line) {
                return Ok(None);
            }
            Ok(Some((line, rest)))
        }
        None => Ok(None),
    }
}
