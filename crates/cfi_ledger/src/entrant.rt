//! A module that is to join those that are loaded.

ghost use Rattle.std.specs.Prelude.{◌≡◌, ◌+◌, ◌<◌, ◌^◌, IfOk, OnOk, length, vec_len, vec_capacity};
ghost use Rattle.cfi_graph.specs.Cell.{cells_of};
ghost use Rattle.cfi_modules.specs.Fills.{fill_of};
ghost use Rattle.cfi_modules.specs.Series.{live_in};
ghost use Rattle.cfi_ledger.specs.Roster.{line_by};
ghost use Rattle.cfi_valid.specs.Loaded.{planned_name};

use cfi_aux::Placed;
use cfi_modules::Series;
use cfi_plan::{ModuleLine, Plan};
use cfi_unit::Fill;
use cfi_values::{Bytes, Text};
use std::alloc::{AllocError, Global};

/// A module that is to join: its number, its name and the policy that comes with it.
#[derive(Drop)]
pub struct Entrant<'a> {
    /// Its number in the plan, from 0.
    pub number: u32,
    /// Its name in the plan.
    pub name: &'a str,
    /// The policy that comes with it.
    pub policy: u32,
}

impl<'a> Entrant<'a> {
    /// The module of the plan of this number.
    pub fn of(plan: &'a Plan, number: u32, policy: u32) -> Entrant<'a>
        requires { number < length plan.now.modules }
        ensures number { result.number ≡ number }
        ensures name { result.name.now ≡ planned_name plan.now.modules number }
        ensures policy { result.policy ≡ policy }
    {
        Entrant {
            number,
            name: plan.modules.as_slice()[number as usize].name.as_str(),
            policy,
        }
    }
}

// What a report says of a module.
pub(crate) fn line_of(
    alloc: Global,
    entrant: &Entrant<'_>,
    placed: &Placed,
) -> Result<ModuleLine, AllocError>
    ensures { IfOk result (λ line. line
        ≡ line_by entrant.now.number entrant.now.name.now entrant.now.policy placed.now) }
{
    Ok(ModuleLine {
        number: entrant.number,
        name: Text::from_string(String::from_str(alloc, entrant.name)?),
        base: placed.base,
        slot: placed.slot_base,
        data_base: placed.data_base,
        policy: entrant.policy,
    })
}

// The data of a module, at its place.
pub(crate) fn fill_of(alloc: Global, placed: &Placed) -> Result<Fill, AllocError>
    ensures { IfOk result (λ fill. fill ≡ fill_of placed.now) }
{
    let bytes = Vec::from_slice(alloc, placed.static_data.as_slice())?;
    Ok(Fill {
        at: placed.data_base,
        bytes: Bytes::from_vec(bytes),
    })
}

/// The line and the data of a module, with room for both, and for so many cells.
pub(crate) fn taken(
    alloc: Global,
    entrant: &Entrant<'_>,
    placed: &Placed,
    cells: usize,
    lines: &mut Vec<ModuleLine>,
    fills: &mut Vec<Fill>,
) -> Result<(ModuleLine, Fill), AllocError>
    requires { cells < 2 ^ 63 }
    ensures line { IfOk result (λ pair. pair.0
        ≡ line_by entrant.now.number entrant.now.name.now entrant.now.policy placed.now) }
    ensures fill { IfOk result (λ pair. pair.1 ≡ fill_of placed.now) }
    ensures lines { lines.new.items ≡ lines.old.items }
    ensures fills { fills.new.items ≡ fills.old.items }
    ensures line_fits { OnOk result (vec_len lines.new < vec_capacity lines.new) }
    ensures fills_fit { OnOk result (vec_len fills.new + cells < vec_capacity fills.new) }
{
    lines.reserve(1)?;
    fills.reserve(cells + 1)?;
    let line = line_of(alloc, entrant, placed)?;
    let fill = fill_of(alloc, placed)?;
    Ok((line, fill))
}

/// The line and the data of a module of a series, and the cells of all modules, with room for all of it.
pub(crate) fn brought(
    alloc: Global,
    entrant: &Entrant<'_>,
    series: &Series,
    placed: &Placed,
    lines: &mut Vec<ModuleLine>,
    fills: &mut Vec<Fill>,
) -> Result<(ModuleLine, Fill, Vec<Fill>), AllocError>
    ensures line { IfOk result (λ all. all.0
        ≡ line_by entrant.now.number entrant.now.name.now entrant.now.policy placed.now) }
    ensures fill { IfOk result (λ all. all.1 ≡ fill_of placed.now) }
    ensures cells { IfOk result (λ all.
        all.2.items ≡ cells_of (live_in series.now) series.now.placed) }
    ensures lines { lines.new.items ≡ lines.old.items }
    ensures fills { fills.new.items ≡ fills.old.items }
    ensures line_fits { OnOk result (vec_len lines.new < vec_capacity lines.new) }
    ensures fills_fit { IfOk result (λ all.
        vec_len fills.new + vec_len all.2 < vec_capacity fills.new) }
{
    let cells = series.cells()?;
    let (line, fill) = taken(alloc, entrant, placed, cells.len(), lines, fills)?;
    Ok((line, fill, cells))
}
