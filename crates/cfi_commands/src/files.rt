//! The modules of files, placed.

ghost use Rattle.std.specs.Prelude.{◌≡◌, All, IfOk, IfErr};
ghost use Rattle.cfi_plan.specs.Plan.{IsPlan};
ghost use Rattle.cfi_commands.specs.Modules.{IsShortFile};
ghost use Rattle.cfi_modules.specs.Order.{AreInOrder};
ghost use Rattle.cfi_modules.specs.Series.{CanBeTaken};
ghost use Rattle.cfi_commands.specs.Files.{ArePlacedFiles, IsFilesFault};
ghost use Rattle.cfi_commands.specs.inner.Order.{IsSeriesFault, fault_at};

use crate::fault::CommandFault;
use crate::modules::read_modules;
use crate::refusal::Refusal;
use cfi_aux::Module;
use cfi_modules::{JoinFault, Series};
use cfi_plan::Plan;
use cfi_values::{Bytes, Items};
use cfi_word::Layout;
use std::alloc::Global;

// The fault of the module of a number.
fn fault_at(number: usize, fault: JoinFault) -> CommandFault
    ensures { result ≡ fault_at number fault }
{
    match fault {
        JoinFault::Place(fault) => CommandFault::File(number, Refusal::Place(fault)),
        JoinFault::Verify(fault) => CommandFault::File(number, Refusal::Verify(fault)),
        JoinFault::Memory => CommandFault::Memory,
    }
}

// The modules, placed in their order. Each is dropped once it is placed, which leaves its memory to those after it.
fn place_all(alloc: Global, layout: &Layout, modules: Items<Module>) -> Result<Series, CommandFault>
    requires taken { All CanBeTaken modules }
    ensures order { IfOk result (λ series. AreInOrder layout.now modules series.placed) }
    ensures fault { IfErr result (IsSeriesFault layout.now modules) }
{
    let mut series = Series::new(alloc, layout);
    for unplaced in modules.into_vec() {
        if let Err(fault) = series.add(&unplaced) {
            // A refusal leaves the series as it was: it has the modules before this one.
            return Err(fault_at(series.modules().len(), fault));
        }
    }
    Ok(series)
}

// The code words of a plan.
fn layout_of(plan: &Plan) -> Layout
    requires { IsPlan plan.now }
    ensures { result ≡ plan.now.code_words }
{
    Layout::new(plan.code_words).unwrap()
}

/// The modules that the files are, placed in their order in the code words of the plan.
///
/// `files` are those of the plan's modules. All are taken as modules before the first is placed. The fault is the first
/// of this order.
pub fn placed_files(alloc: Global, plan: &Plan, files: Items<Bytes>) -> Result<Series, CommandFault>
    requires plan { IsPlan plan.now }
    requires small { All IsShortFile files }
    ensures ok { IfOk result (λ series.
        ArePlacedFiles plan.now.code_words files series.placed) }
    ensures fault { IfErr result (IsFilesFault plan.now.code_words files) }
{
    let modules = read_modules(alloc, files)?;
    place_all(alloc, &layout_of(plan), modules)
}
