//! The text of the groups of a policy.

ghost use Rattle.std.specs.Prelude.{◌≡◌, ◌++◌, All, IfOk, IfErr, OnOk};
ghost use Rattle.std.specs.List.{flat_map};
ghost use Rattle.cfi_plan.specs.Plan.{IsPlan};
ghost use Rattle.cfi_commands.specs.Modules.{IsShortFile};
ghost use Rattle.cfi_commands.specs.Files.{IsFilesFault};
ghost use Rattle.cfi_commands.specs.Graph.{slot_word, address_word, group_line, IsGraphText};

use crate::fault::CommandFault;
use crate::files::placed_files;
use cfi_plan::Plan;
use cfi_policy::{Group, groups};
use cfi_text::{put_dec, put_hex8};
use cfi_values::{Bytes, Items};
use std::alloc::{AllocError, Global};

// Appends the slots, each after a space.
fn put_slots(text: &mut Vec<u8>, slots: &[u32]) -> Result<(), AllocError>
    ensures { OnOk result (text.new.items ≡ text.old.items ++ flat_map slot_word slots.now) }
{
    for slot in slots {
        text.push(b' ')?;
        put_dec(text, u64::from(*slot))?;
    }
    Ok(())
}

// Appends the addresses, each after a space.
fn put_addresses(text: &mut Vec<u8>, addresses: &[u32]) -> Result<(), AllocError>
    ensures { OnOk result (text.new.items ≡ text.old.items ++ flat_map address_word addresses.now) }
{
    for address in addresses {
        text.push(b' ')?;
        put_hex8(text, *address)?;
    }
    Ok(())
}

// Appends the line of a group.
fn put_group(text: &mut Vec<u8>, group: &Group) -> Result<(), AllocError>
    ensures { OnOk result (text.new.items ≡ text.old.items ++ group_line group.now) }
{
    if group.targets.as_slice().is_empty() {
        text.extend_from_slice(b"none")?;
        put_slots(text, group.branches.as_slice())?;
    } else {
        text.extend_from_slice(b"class")?;
        put_slots(text, group.branches.as_slice())?;
        text.extend_from_slice(b" :")?;
        put_addresses(text, group.targets.as_slice())?;
    }
    text.push(b'\n')?;
    Ok(())
}

// The lines of groups.
fn lines_of(alloc: Global, groups: &[Group]) -> Result<Vec<u8>, AllocError>
    ensures { IfOk result (λ text. text.items ≡ flat_map group_line groups.now) }
{
    let mut text = Vec::new(alloc);
    for group in groups {
        put_group(&mut text, group)?;
    }
    Ok(text)
}

/// The groups of the policy of the modules that the files are, where all place and verify in order, a line for each:
/// `class SLOTS : ADDRESSES`, and for the last one, where its branches may go nowhere, `none SLOTS`.
///
/// The fault is the first of the files.
pub fn graph_text(alloc: Global, plan: &Plan, files: Items<Bytes>) -> Result<Vec<u8>, CommandFault>
    requires plan { IsPlan plan.now }
    requires small { All IsShortFile files }
    ensures ok { IfOk result (λ text. IsGraphText plan.now.code_words files text.items) }
    ensures fault { IfErr result (IsFilesFault plan.now.code_words files) }
{
    let series = placed_files(alloc, plan, files)?;
    let found = groups(alloc, series.modules())?;
    Ok(lines_of(alloc, found.as_slice())?)
}
