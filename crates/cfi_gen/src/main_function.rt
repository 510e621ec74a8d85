//! The function of the guests.

ghost use Rattle.std.specs.Prelude.{◌≡◌, ◌++◌, ◌≤◌, OnOk, codes, string_bytes};
ghost use Rattle.std.specs.Fmt.{decimal};
ghost use Rattle.cfi_gen.specs.Source.{line, opening_lines, calling_lines, putting_lines, guest_lines, exit_lines, main_head, main_lines};

use crate::source::put_line;
use std::alloc::AllocError;

// Appends that a number is given.
#[tactic(auto, unfolding(crate::specs::Source::line))]
fn put_number(text: &mut String, number: u32) -> Result<(), AllocError>
    ensures { OnOk result
        (string_bytes text.new ≡ string_bytes text.old ++ line (codes "li a0," ++ decimal number)) }
{
    write!(text, "li a0,{number}\n")
}

// Appends how the module of a number is opened.
#[tactic(auto, unfolding(crate::specs::Source::opening_lines))]
fn put_opening(text: &mut String, number: u32) -> Result<(), AllocError>
    ensures { OnOk result (string_bytes text.new ≡ string_bytes text.old ++ opening_lines number) }
{
    put_line(text, "li a7,4")?;
    put_number(text, number)?;
    put_line(text, "ecall")?;
    put_line(text, "mv t0,a0")
}

// Appends how it is called.
#[tactic(auto, unfolding(crate::specs::Source::calling_lines))]
fn put_calling(text: &mut String, number: u32) -> Result<(), AllocError>
    ensures { OnOk result (string_bytes text.new ≡ string_bytes text.old ++ calling_lines number) }
{
    put_number(text, number)?;
    put_line(text, ".kind call 1")?;
    put_line(text, "jalr ra,0(t0)")?;
    Ok(())
}

// Appends how its answer is put.
#[tactic(auto, unfolding(crate::specs::Source::putting_lines))]
fn put_putting(text: &mut String) -> Result<(), AllocError>
    ensures { OnOk result (string_bytes text.new ≡ string_bytes text.old ++ putting_lines) }
{
    put_line(text, "li a7,2")?;
    put_line(text, "ecall")
}

// Appends all this.
fn put_guest(text: &mut String, number: u32) -> Result<(), AllocError>
    ensures { OnOk result (string_bytes text.new ≡ string_bytes text.old ++ guest_lines number) }
{
    put_opening(text, number)?;
    put_calling(text, number)?;
    put_putting(text)
}

// Appends how the guest ends.
#[tactic(auto, unfolding(crate::specs::Source::exit_lines))]
fn put_exit(text: &mut String) -> Result<(), AllocError>
    ensures { OnOk result (string_bytes text.new ≡ string_bytes text.old ++ exit_lines) }
{
    put_line(text, "li a0,0")?;
    put_line(text, "li a7,1")?;
    put_line(text, "ecall")?;
    put_line(text, "j .+0")
}

// Appends what it begins with.
#[tactic(auto, unfolding(crate::specs::Source::main_head))]
fn put_head(text: &mut String) -> Result<(), AllocError>
    ensures { OnOk result (string_bytes text.new ≡ string_bytes text.old ++ main_head) }
{
    put_line(text, ".globl main")?;
    put_line(text, ".func main 1")?;
    Ok(())
}

/// Appends `main`, where so many modules are there.
pub fn put_main(text: &mut String, count: u32) -> Result<(), AllocError>
    requires some { 1 ≤ count }
    ensures { OnOk result (string_bytes text.new ≡ string_bytes text.old ++ main_lines count) }
{
    put_head(text)?;
    for before in 0..count - 1 {
        put_guest(text, before + 1)?;
    }
    put_exit(text)?;
    put_line(text, ".endfunc")?;
    Ok(())
}
