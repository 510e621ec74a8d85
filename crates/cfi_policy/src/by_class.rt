//! The slots and addresses of each class.

ghost use Rattle.std.specs.Prelude.{◌+◌, ◌*◌, ◌<◌, ◌^◌, length, IfOk};
ghost use Rattle.cfi_policy.specs.inner.ByClass.{AreLinksBy, AreRowsBy, IsCount, AreClassGroups};

use crate::group::Group;
use cfi_flow::{Link, Rows, rows_of};
use cfi_values::Items;
use cfi_word::{FIELD_MAX, Labels};
use std::alloc::{AllocError, Global};

// How many classes the slots have: the greatest of their class numbers.
fn class_count(bary: &[u32]) -> u32
    ensures { IsCount bary.now result }
{
    let mut count = 0;
    for number in bary {
        if *number < FIELD_MAX && count < *number {
            count = *number;
        }
    }
    count
}

// A link from each class number up to the count to each place that has it, times the step.
fn links_by(alloc: Global, numbers: &[u32], count: u32, step: u32) -> Result<Vec<Link>, AllocError>
    requires step { 0 < step }
    requires fits { step * length numbers.now < 2 ^ 32 }
    ensures { IfOk result (λ links. AreLinksBy step count numbers.now links.items) }
{
    let mut links = Vec::new(alloc);
    for (place, number) in numbers.iter().enumerate() {
        if 1 <= *number && *number <= count {
            let to = step * place as u32;
            links.push(Link { from: *number, to })?;
        }
    }
    Ok(links)
}

// For each class number up to the count the places that have it, times the step, in order.
fn members(alloc: Global, numbers: &[u32], count: u32, step: u32) -> Result<Rows, AllocError>
    requires step { 0 < step }
    requires fits { step * length numbers.now < 2 ^ 32 }
    requires count { count + 1 < 2 ^ 32 }
    ensures { IfOk result (AreRowsBy step count numbers.now) }
{
    let links = links_by(alloc, numbers, count, step)?;
    rows_of(alloc, count + 1, links.as_slice())
}

// A group for each class, in the order of their numbers.
pub(crate) fn class_groups(alloc: Global, labels: &Labels) -> Result<Vec<Group>, AllocError>
    requires tary { 4 * length labels.now.tary < 2 ^ 32 }
    requires bary { length labels.now.bary < 2 ^ 32 }
    ensures { IfOk result (λ groups.
        AreClassGroups labels.now.tary labels.now.bary groups.items) }
{
    let count = class_count(labels.bary.as_slice());
    let branches = members(alloc, labels.bary.as_slice(), count, 1)?;
    let targets = members(alloc, labels.tary.as_slice(), count, 4)?;
    let mut groups = Vec::with_capacity(alloc, count as usize)?;
    for class in 0..count {
        let slots = Vec::from_slice(alloc, branches.row(class + 1))?;
        let addresses = Vec::from_slice(alloc, targets.row(class + 1))?;
        groups.push(Group {
            branches: Items::from_vec(slots),
            targets: Items::from_vec(addresses),
        })?;
    }
    Ok(groups)
}
