ghost use Rattle.std.specs.Prelude.{◌≡◌, ◌++◌, OnOk, string_bytes};
ghost use Rattle.cfi_commands.specs.Plan.{plan_text};

use crate::words::{Numbers, put_words};
use cfi_plan::PlanFault;
use std::alloc::AllocError;

/// Appends the name and the line of a plan's fault.
pub fn put_plan(text: &mut String, fault: PlanFault) -> Result<(), AllocError>
    ensures { OnOk result (string_bytes text.new ≡ string_bytes text.old ++ plan_text fault) }
{
    match fault {
        PlanFault::Syntax(line) => put_words(text, "Syntax", Numbers::One(line)),
        PlanFault::Limit(line) => put_words(text, "Limit", Numbers::One(line)),
        PlanFault::NoGuest => text.push_str("NoGuest"),
        PlanFault::Memory => text.push_str("Memory"),
    }
}
