ghost use Rattle.std.specs.Prelude.{◌≡◌, ◌^◌, ◌<◌, IfOk, length};
ghost use Rattle.cfi_plan.specs.Draft.{empty, Fails};
ghost use Rattle.cfi_values.specs.Due.{Answers, Leaves};
ghost use Rattle.cfi_plan.specs.Plan.{IsPlan};
ghost use Rattle.cfi_plan.specs.Reading.{is_head, with_text, with_lines, plan_in};
ghost use Rattle.cfi_text.specs.Words.{words_in};
ghost use Rattle.cfi_text.specs.Lines.{statement_of};

use crate::draft::Draft;
use crate::fault::PlanFault;
use crate::line::read_line;
use crate::plan::Plan;
use cfi_text::{Lines, next_word, statement};
use std::alloc::Global;

/// The plan that a text says, or its first fault.
///
/// Line 1 is `plan 1`; the others are settings, modules, guests and script lines, in any order. The first faulty line
/// decides, and on one line `Syntax` comes before `Limit`; `NoGuest` comes last.
pub fn read_plan(alloc: Global, text: &[u8]) -> Result<Plan, PlanFault>
    requires { length text.now < 2 ^ 32 }
    ensures due { Answers Fails result (plan_in text.now) }
    ensures sound { IfOk result IsPlan }
{
    read_text(alloc, text)
}

#[tactic(auto, unfolding(crate::specs::Reading::plan_in))]
fn read_text(alloc: Global, text: &[u8]) -> Result<Plan, PlanFault>
    requires { length text.now < 2 ^ 32 }
    ensures { Answers Fails result (plan_in text.now) }
{
    let mut lines = Lines::new(text);
    let Some((_, head)) = lines.next() else {
        return Err(PlanFault::Syntax(1));
    };
    if !is_head(head) {
        return Err(PlanFault::Syntax(1));
    }
    read_lines(alloc, lines)?.into_plan()
}

// The draft that the lines after line 1 say.
fn read_lines(alloc: Global, lines: Lines<'_>) -> Result<Draft, PlanFault>
    ensures { Answers Fails result (with_lines empty lines.entry) }
{
    let mut draft = Draft::new(alloc);
    for (number, line) in lines {
        add_line(alloc, &mut draft, number, line)?;
    }
    Ok(draft)
}

#[tactic(auto, unfolding(crate::specs::Reading::with_text))]
fn add_line(alloc: Global, draft: &mut Draft, number: u32, line: &[u8]) -> Result<(), PlanFault>
    ensures { Leaves Fails result draft.new (with_text number draft.old line.now) }
{
    match read_line(alloc, statement(line))? {
        Some(line) => draft.take_line(alloc, number, line),
        None => Err(PlanFault::Syntax(number)),
    }
}

// Whether the line is line 1 of a plan.
fn is_head(line: &[u8]) -> bool
    ensures { result ≡ is_head (words_in (statement_of line.now)) }
{
    let Some((keyword, rest)) = next_word(statement(line)) else {
        return false;
    };
    let Some((number, rest)) = next_word(rest) else {
        return false;
    };
    next_word(rest).is_none() && keyword == b"plan".as_slice() && number == b"1".as_slice()
}
