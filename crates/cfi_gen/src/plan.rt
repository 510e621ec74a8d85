//! The plan.

ghost use Rattle.std.specs.Prelude.{◌≡◌, ◌++◌, IfOk, OnOk, string_bytes};
ghost use Rattle.cfi_gen.specs.Plan.{setting_lines, guest_lines, time_word, module_line, plan_text};

use crate::source::put_line;
use std::alloc::{AllocError, Global};

// Appends the settings.
#[tactic(auto, unfolding(crate::specs::Plan::setting_lines))]
fn put_settings(text: &mut String) -> Result<(), AllocError>
    ensures { OnOk result (string_bytes text.new ≡ string_bytes text.old ++ setting_lines) }
{
    put_line(text, "plan 1")?;
    put_line(text, "code 16384")?;
    put_line(text, "fuel 10000000")
}

// When a module is loaded.
fn time_word(number: u32) -> &'static str
    ensures { result.now ≡ time_word number }
{
    if number == 0 { "start" } else { "late" }
}

// Appends the line of a module.
#[tactic(auto, unfolding(crate::specs::Source::line))]
fn put_module(text: &mut String, number: u32) -> Result<(), AllocError>
    ensures { OnOk result (string_bytes text.new ≡ string_bytes text.old ++ module_line number) }
{
    let time = time_word(number);
    write!(text, "module m{number} m{number}.o {time}\n")
}

// Appends the guests.
#[tactic(auto, unfolding(crate::specs::Plan::guest_lines))]
fn put_guests(text: &mut String) -> Result<(), AllocError>
    ensures { OnOk result (string_bytes text.new ≡ string_bytes text.old ++ guest_lines) }
{
    put_line(text, "guest main")?;
    put_line(text, "guest main")?;
    put_line(text, "guest main")?;
    put_line(text, "guest main")
}

/// The plan of so many modules.
#[tactic(auto, unfolding(crate::specs::Plan::plan_text))]
pub fn plan_of(alloc: Global, count: u32) -> Result<String, AllocError>
    ensures { IfOk result (λ text. string_bytes text ≡ plan_text count) }
{
    let mut text = String::new(alloc);
    put_settings(&mut text)?;
    for number in 0..count {
        put_module(&mut text, number)?;
    }
    put_guests(&mut text)?;
    put_line(&mut text, "refresh 20")?;
    Ok(text)
}
