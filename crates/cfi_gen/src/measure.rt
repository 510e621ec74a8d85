//! How much modules are in all.

ghost use Rattle.std.specs.Prelude.{◌≡◌, All, IfOk, IfErr, count_by};
ghost use Rattle.cfi_commands.specs.Files.{IsFilesFault};
ghost use Rattle.cfi_commands.specs.Modules.{IsShortFile};
ghost use Rattle.cfi_gen.specs.Measure.{IsMeasure, branches_in, has_targets, words_in};
ghost use Rattle.cfi_gen.specs.inner.Series.{IsOfSeries};
ghost use Rattle.cfi_plan.specs.Plan.{IsPlan};

use crate::summary_text::Measure;
use cfi_aux::Placed;
use cfi_commands::{CommandFault, placed_files};
use cfi_plan::Plan;
use cfi_policy::{Group, groups};
use cfi_values::{Bytes, Items};
use cfi_word::map::FIRST_BASE;
use std::alloc::Global;

// How many words placed modules have: as far as the last one ends.
fn words_of(placed: &[Placed]) -> u64
    requires { IsOfSeries placed.now }
    ensures { result ≡ words_in placed.now }
{
    match placed.last() {
        Some(last) => {
            u64::from(last.base) + last.words.as_slice().len() as u64 - u64::from(FIRST_BASE)
        }
        None => 0,
    }
}

// How many branches they have.
fn branches_of(placed: &[Placed]) -> u64
    requires { IsOfSeries placed.now }
    ensures { result ≡ branches_in placed.now }
{
    match placed.last() {
        Some(last) => u64::from(last.slot_base) + last.branches.as_slice().len() as u64,
        None => 0,
    }
}

// How many groups have targets.
fn classes_of(groups: &[Group]) -> u64
    ensures { result ≡ count_by has_targets groups.now }
{
    let mut classes = 0;
    for group in groups {
        if !group.targets.as_slice().is_empty() {
            classes += 1;
        }
    }
    classes
}

/// How much the modules of a plan are in all, where all place and verify in order.
///
/// `files` are those of the plan's modules. The fault is the first of the files.
pub fn measure_of(alloc: Global, plan: &Plan, files: Items<Bytes>) -> Result<Measure, CommandFault>
    requires plan { IsPlan plan.now }
    requires small { All IsShortFile files }
    ensures ok { IfOk result (IsMeasure plan.now.code_words files) }
    ensures fault { IfErr result (IsFilesFault plan.now.code_words files) }
{
    let series = placed_files(alloc, plan, files)?;
    let placed = series.modules();
    let found = groups(alloc, placed)?;
    Ok(Measure {
        words: words_of(placed),
        slots: branches_of(placed),
        classes: classes_of(found.as_slice()),
    })
}
