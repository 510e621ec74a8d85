ghost use Rattle.std.specs.Prelude.{◌≡◌, ◌++◌, OnOk, string_bytes};
ghost use Rattle.cfi_commands.specs.Judge.{judge_text};

use std::alloc::AllocError;

/// A part of a report, which is not a valid one.
#[derive(Clone, Copy, Debug, PartialEq, Eq)]
pub enum ReportPart {
    /// The lines of modules.
    Modules,
    /// The line of the journal of this number, from 0; or this is the number of lines, and the force is at fault.
    Journal(usize),
    /// The lines for which the script asked.
    Script,
    /// The guests and their entries.
    Guests,
    /// The log of the guest of this number.
    Log(usize),
    /// What the guest of this number has come to.
    Replay(usize),
    /// The steps of the guest of this number.
    Steps(usize),
}

/// Appends the name of a part, and its number.
pub fn put_judge(text: &mut String, part: ReportPart) -> Result<(), AllocError>
    ensures { OnOk result (string_bytes text.new ≡ string_bytes text.old ++ judge_text part) }
{
    match part {
        ReportPart::Modules => text.push_str("Modules"),
        ReportPart::Journal(line) => write!(text, "Journal {line}"),
        ReportPart::Script => text.push_str("Script"),
        ReportPart::Guests => text.push_str("Guests"),
        ReportPart::Log(guest) => write!(text, "Log {guest}"),
        ReportPart::Replay(guest) => write!(text, "Replay {guest}"),
        ReportPart::Steps(guest) => write!(text, "Steps {guest}"),
    }
}
