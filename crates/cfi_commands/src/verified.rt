//! The text of modules that verify.

ghost use Rattle.std.specs.Prelude.{◌≡◌, ◌++◌, length, All, IfOk, IfErr, OnOk};
ghost use Rattle.cfi_plan.specs.Plan.{IsPlan};
ghost use Rattle.cfi_commands.specs.Modules.{IsShortFile};
ghost use Rattle.cfi_commands.specs.Files.{IsFilesFault};
ghost use Rattle.cfi_commands.specs.Verified.{module_line, module_lines, IsVerifiedText};

use crate::fault::CommandFault;
use crate::files::placed_files;
use cfi_aux::Placed;
use cfi_plan::{Plan, PlanModule};
use cfi_text::put_dec;
use cfi_values::{Bytes, Items};
use std::alloc::{AllocError, Global};

// Appends the line of a module with its number of branches, each of which has a check.
fn put_line(text: &mut Vec<u8>, one: &PlanModule, placed: &Placed) -> Result<(), AllocError>
    ensures { OnOk result (text.new.items ≡ text.old.items ++ module_line one.now placed.now) }
{
    text.extend_from_slice(b"ok ")?;
    text.extend_from_slice(one.name.as_str().as_bytes())?;
    text.push(b' ')?;
    put_dec(text, placed.words.as_slice().len() as u64)?;
    text.push(b' ')?;
    put_dec(text, placed.branches.as_slice().len() as u64)?;
    text.push(b'\n')?;
    Ok(())
}

// The lines of the modules.
fn module_lines(
    alloc: Global,
    modules: &[PlanModule],
    placed: &[Placed],
) -> Result<Vec<u8>, AllocError>
    requires { length placed.now ≡ length modules.now }
    ensures { IfOk result (λ text. text.items ≡ module_lines modules.now placed.now) }
{
    let mut text = Vec::new(alloc);
    for (number, one) in modules.iter().enumerate() {
        put_line(&mut text, one, &placed[number])?;
    }
    Ok(text)
}

/// The line `ok NAME WORDS CHECKS` of each module of a plan, where all place and verify in order.
///
/// `files` are those of the plan's modules, one for each. The fault is the first of the files.
pub fn verified_text(
    alloc: Global,
    plan: &Plan,
    files: Items<Bytes>,
) -> Result<Vec<u8>, CommandFault>
    requires plan { IsPlan plan.now }
    requires count { length plan.now.modules ≡ length files }
    requires small { All IsShortFile files }
    ensures ok { IfOk result (λ text. IsVerifiedText plan.now files text.items) }
    ensures fault { IfErr result (IsFilesFault plan.now.code_words files) }
{
    let series = placed_files(alloc, plan, files)?;
    Ok(module_lines(alloc, plan.modules.as_slice(), series.modules())?)
}
