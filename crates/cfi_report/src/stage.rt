ghost use Rattle.std.specs.Prelude.{◌≡◌};
ghost use Rattle.cfi_report.specs.inner.Draft.{takes_journal, takes_guests, takes_log, may_follow};
ghost use Rattle.cfi_report.specs.Report.{differ};

use crate::line::Line;
use cfi_unit::Log;

/// What the last line of a report was that was read.
#[derive(Clone, Copy, Debug)]
pub enum Stage {
    /// There was none.
    Start,
    /// The first line.
    Titled,
    /// The force, or a module.
    Modules,
    /// A line of the journal.
    Journal,
    /// A guest's line, or an entry of its log.
    Log(Option<Log>),
    /// What the guest put.
    Out,
    /// Why the guest stopped.
    Stop,
    /// The guest's units.
    Units,
    /// The guest's steps.
    Guests,
    /// The last line.
    Ended,
}

/// Whether the line may follow.
pub fn may_follow(stage: Stage, line: &Line) -> bool
    ensures { result ≡ may_follow stage line.now }
{
    match line {
        Line::Title => matches!(stage, Stage::Start),
        Line::Force(_, _) => matches!(stage, Stage::Titled),
        Line::Module(_) => matches!(stage, Stage::Modules),
        Line::Journal(_) => takes_journal(stage),
        Line::Guest(_, _) | Line::End => takes_guests(stage),
        Line::Log(entry) => takes_log(stage, *entry),
        Line::Out(_) => matches!(stage, Stage::Log(_)),
        Line::Stop(_) => matches!(stage, Stage::Out),
        Line::Units(_) => matches!(stage, Stage::Stop),
        Line::Steps(_) => matches!(stage, Stage::Units),
    }
}

fn takes_journal(stage: Stage) -> bool
    ensures { result ≡ takes_journal stage }
{
    matches!(stage, Stage::Modules | Stage::Journal)
}

fn takes_guests(stage: Stage) -> bool
    ensures { result ≡ takes_guests stage }
{
    matches!(stage, Stage::Modules | Stage::Journal | Stage::Guests)
}

fn takes_log(stage: Stage, entry: Log) -> bool
    ensures { result ≡ takes_log stage entry }
{
    match stage {
        Stage::Log(Some(last)) => differ(last, entry),
        Stage::Log(None) => true,
        _ => false,
    }
}

// Two picks of one policy are one.
fn differ(entry: Log, next: Log) -> bool
    ensures { result ≡ differ entry next }
{
    match (entry, next) {
        (Log::Pick { policy, .. }, Log::Pick { policy: other, .. }) => policy != other,
        _ => true,
    }
}
