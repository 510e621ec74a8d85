//! The journal, beside what of the script is left.

ghost use Rattle.std.specs.Prelude.{◌≡◌, ◌≤◌, ◌<◌, ◌++◌, [], IfOk, OnOk, map, length, option_map, slice_get};
ghost use Rattle.cfi_plan.specs.Draft.{refreshes};
ghost use Rattle.cfi_valid.specs.Script.{calls_of, script_calls};
ghost use Rattle.cfi_ledger.specs.Calls.{call_due};
ghost use Rattle.cfi_ledger.specs.Journal.{HasLine, HasRoomFor};

use crate::due::Due;
use cfi_plan::{Entry, JournalLine, ScriptLine, Who};
use std::alloc::{AllocError, Global};
use std::marker::Model;

/// The journal, and the script's calls that are left; there is room for a line of each.
#[derive(Drop)]
pub struct Journal {
    lines: Vec<Entry>,
    // The script's calls, in order, and how many of them were made.
    calls: Vec<Due>,
    made: usize,
}

impl Model for Journal {
    ghost use Rattle.cfi_ledger.specs.Journal.{Minutes, minutes_of, HasScriptRoom};

    ghost Value = { Minutes };

    ghost view = { minutes_of };

    ghost invariant = { HasScriptRoom };
}

// Adds so many refreshes.
fn add_refreshes(calls: &mut Vec<Due>, count: u32) -> Result<(), AllocError>
    ensures { OnOk result (map call_due calls.new.items
        ≡ map call_due calls.old.items ++ calls_of (ScriptLine.Refresh count)) }
{
    let all = calls.len() + count as usize;
    calls.resize(all, Due::Refresh)?;
    Ok(())
}

// The calls of a script, in order.
fn calls_of(alloc: Global, script: &[ScriptLine]) -> Result<Vec<Due>, AllocError>
    ensures { IfOk result (λ calls. map call_due calls.items ≡ script_calls script.now) }
{
    let mut calls = Vec::new(alloc);
    for line in script {
        match line {
            ScriptLine::Load(number) => calls.push(Due::Load(*number))?,
            ScriptLine::Retire(number) => calls.push(Due::Retire(*number))?,
            ScriptLine::Refresh(count) => add_refreshes(&mut calls, *count)?,
        }
    }
    Ok(calls)
}

impl Journal {
    /// An empty journal, of whose script all calls are left.
    pub fn new(alloc: Global, script: &[ScriptLine]) -> Result<Journal, AllocError>
        ensures lines { IfOk result (λ journal. journal.lines ≡ []) }
        ensures left { IfOk result (λ journal. journal.left ≡ script_calls script.now) }
    {
        let calls = calls_of(alloc, script)?;
        let lines = Vec::with_capacity(alloc, calls.len())?;
        Ok(Journal {
            lines,
            calls,
            made: 0,
        })
    }

    /// An empty journal without a script. It takes no memory.
    pub fn unscripted(alloc: Global) -> Journal
        ensures lines { result.lines ≡ [] }
        ensures left { result.left ≡ [] }
    {
        Journal {
            lines: Vec::new(alloc),
            calls: Vec::new(alloc),
            made: 0,
        }
    }

    /// The lines, in order.
    pub fn lines(&self) -> &[Entry]
        ensures { result.now ≡ self.now.lines }
    {
        &self.lines
    }

    /// The next call of the script.
    pub fn due(&self) -> Option<Due>
        ensures { option_map call_due result ≡ slice_get self.now.left 0 }
    {
        if self.made == self.calls.len() {
            return None;
        }
        Some(self.calls[self.made])
    }

    /// Takes room for a line beside those of the script.
    pub fn reserve(&mut self) -> Result<(), AllocError>
        ensures lines { self.new.lines ≡ self.old.lines }
        ensures left { self.new.left ≡ self.old.left }
        ensures spare { OnOk result (0 < self.new.spare) }
    {
        let due = self.calls.len() - self.made;
        self.lines.reserve(due + 1)
    }

    /// Adds a line, for which there is room. The script's is that of its next call, where one is left. It takes no
    /// memory.
    pub fn tell(&mut self, who: Who, what: JournalLine)
        requires room { HasRoomFor who self.old }
        ensures { HasLine (record { who = who; what = what }) self.old self.new }
    {
        self.lines.push_reserved(Entry { who, what });
        match who {
            Who::Script if self.made < self.calls.len() => self.made += 1,
            Who::Script | Who::Guest(_) => {}
        }
    }

    /// The lines, in order.
    pub fn into_lines(self) -> Vec<Entry>
        ensures { result.items ≡ self.lines }
    {
        self.lines
    }
}
