//! All facts of placed modules.

ghost use Rattle.std.specs.Prelude.{◌≡◌, ◌+◌, ◌*◌, ◌<◌, ◌≤◌, ◌^◌, length, sum_by, Some, IfOk, OnOk};
ghost use Rattle.std.specs.List.{AllPairs, Contains};
ghost use Rattle.cfi_word.specs.declared.limits.TheConstants.{MAX_CODE_WORDS};
ghost use Rattle.cfi_graph.specs.Shaped.{FunctionPrecedes, slot_of};
ghost use Rattle.cfi_graph.specs.Code.{Stands};
ghost use Rattle.cfi_graph.specs.Facts.{IsJumpFact, IsUnitFact, IsFunctionFact, UnitTells, FunctionTells, ModuleTells, AreFacts, Adds};
ghost use Rattle.cfi_graph.specs.inner.Imports.{imports_in};
ghost use Rattle.cfi_graph.specs.Reading.{CanBeRead, CanAllBeRead};
ghost use Rattle.cfi_graph.specs.Edges.{entry_count, told_most};
ghost use Rattle.cfi_graph.specs.inner.Told.{listed_by, unit_told};

use crate::branch_facts::add_branch;
use crate::fact::Fact;
use crate::imports::Imports;
use crate::place::{first_at, is_open, kind_of, type_node, word_to};
use crate::spot::spots;
use cfi_aux::{Placed, PlacedFunction};
use cfi_flow::Link;
use cfi_types::Classes;
use cfi_unit::{Spot, Unit};
use std::alloc::{AllocError, Global};

// Adds what a direct jump tells.
fn add_jump(
    facts: &mut Vec<Fact>,
    placed: &Placed,
    at: u32,
    link: bool,
    off: i32,
) -> Result<(), AllocError>
    requires order { AllPairs FunctionPrecedes placed.now.functions }
    requires within { placed.now.base + at < MAX_CODE_WORDS }
    ensures adds { OnOk result (Adds facts.old.items facts.new.items
        (IsJumpFact placed.now at link off)) }
    ensures few { OnOk result
        (length facts.new.items ≤ length facts.old.items + 1) }
{
    let Some(word) = word_to(placed.base + at, off) else {
        return Ok(());
    };
    if link {
        let to = 4 * (placed.base + at + 1);
        facts.push(Fact::Site(Link { from: word, to }))?;
        return Ok(());
    }
    let Some(first) = first_at(placed.functions.as_slice(), at) else {
        return Ok(());
    };
    let from = placed.base + first;
    facts.push(Fact::Arrow(Link { from, to: word }))?;
    Ok(())
}

// Adds what a check tells.
fn add_check(
    facts: &mut Vec<Fact>,
    imports: &Imports,
    classes: &Classes,
    number: u32,
    placed: &Placed,
    spot: &Spot,
    slot: u32,
) -> Result<(), AllocError>
    requires read { CanBeRead classes.now number placed.now }
    requires stands { Stands placed.now spot.now.at spot.now.unit }
    requires slot { slot_of spot.now.unit ≡ Some slot }
    ensures adds { OnOk result (Adds facts.old.items facts.new.items
        (IsUnitFact (imports_in imports.now) classes.now number placed.now spot.now.at
        spot.now.unit)) }
    ensures few { OnOk result
        (length facts.new.items ≤ length facts.old.items + 2 + listed_by placed.now (Some slot)) }
{
    let Some(kind) = kind_of(placed, slot) else {
        return Ok(());
    };
    add_branch(facts, imports, classes, number, placed, spot.at, slot, kind)
}

// Adds what a unit tells.
fn add_unit(
    facts: &mut Vec<Fact>,
    imports: &Imports,
    classes: &Classes,
    number: u32,
    placed: &Placed,
    spot: &Spot,
) -> Result<(), AllocError>
    requires read { CanBeRead classes.now number placed.now }
    requires stands { Stands placed.now spot.now.at spot.now.unit }
    ensures adds { OnOk result (Adds facts.old.items facts.new.items
        (IsUnitFact (imports_in imports.now) classes.now number placed.now spot.now.at
        spot.now.unit)) }
    ensures few { OnOk result
        (length facts.new.items ≤ length facts.old.items + unit_told placed.now spot.now.unit) }
{
    match spot.unit {
        Unit::Jump { link, off } => add_jump(facts, placed, spot.at, link, off),
        Unit::Check { slot, .. } => add_check(facts, imports, classes, number, placed, spot, slot),
        Unit::Plain(_) | Unit::Load { .. } | Unit::Store { .. } => Ok(()),
        Unit::Branch { .. } | Unit::Service => Ok(()),
    }
}

// Adds what the units of a module tell.
fn add_units(
    alloc: Global,
    facts: &mut Vec<Fact>,
    imports: &Imports,
    classes: &Classes,
    number: u32,
    placed: &Placed,
) -> Result<(), AllocError>
    requires { CanBeRead classes.now number placed.now }
    ensures adds { OnOk result (Adds facts.old.items facts.new.items
        (UnitTells (imports_in imports.now) classes.now number placed.now)) }
    ensures few { OnOk result
        (length facts.new.items ≤ length facts.old.items + length placed.now.words
        + sum_by entry_count placed.now.branches) }
{
    let spots = spots(alloc, placed.words.as_slice())?;
    for spot in &spots {
        add_unit(facts, imports, classes, number, placed, spot)?;
    }
    Ok(())
}

// Adds what a function of a module tells.
fn add_function(
    facts: &mut Vec<Fact>,
    classes: &Classes,
    number: u32,
    placed: &Placed,
    function: &PlacedFunction,
) -> Result<(), AllocError>
    requires read { CanBeRead classes.now number placed.now }
    requires has { Contains placed.now.functions function.now }
    ensures adds { OnOk result (Adds facts.old.items facts.new.items
        (IsFunctionFact classes.now number placed.now function.now)) }
    ensures few { OnOk result
        (length facts.new.items ≤ length facts.old.items + 2) }
{
    if !is_open(placed, function) {
        return Ok(());
    }
    let from = type_node(classes, number, function.ty);
    let first = placed.base + function.first;
    facts.push(Fact::Arrow(Link { from, to: first }))?;
    facts.push(Fact::Entry(Link {
        from,
        to: 4 * first,
    }))?;
    Ok(())
}

// Adds what the functions of a module tell.
fn add_functions(
    facts: &mut Vec<Fact>,
    classes: &Classes,
    number: u32,
    placed: &Placed,
) -> Result<(), AllocError>
    requires { CanBeRead classes.now number placed.now }
    ensures adds { OnOk result (Adds facts.old.items facts.new.items
        (FunctionTells classes.now number placed.now)) }
    ensures few { OnOk result
        (length facts.new.items ≤ length facts.old.items + 2 * length placed.now.functions) }
{
    for function in placed.functions.as_slice() {
        add_function(facts, classes, number, placed, function)?;
    }
    Ok(())
}

// Adds what a module tells.
pub(crate) fn add_module(
    alloc: Global,
    facts: &mut Vec<Fact>,
    imports: &Imports,
    classes: &Classes,
    number: u32,
    placed: &Placed,
) -> Result<(), AllocError>
    requires { CanBeRead classes.now number placed.now }
    ensures adds { OnOk result (Adds facts.old.items facts.new.items
        (ModuleTells (imports_in imports.now) classes.now number placed.now)) }
    ensures few { OnOk result
        (length facts.new.items ≤ length facts.old.items + told_most placed.now) }
{
    add_units(alloc, facts, imports, classes, number, placed)?;
    add_functions(facts, classes, number, placed)
}

// The facts that the modules tell.
pub(crate) fn facts_of(
    alloc: Global,
    modules: &[Placed],
    imports: &Imports,
    classes: &Classes,
) -> Result<Vec<Fact>, AllocError>
    requires few { length modules.now < 2 ^ 32 }
    requires read { CanAllBeRead classes.now modules.now }
    ensures facts { IfOk result (λ facts.
        AreFacts modules.now (imports_in imports.now) classes.now facts.items) }
    ensures few { IfOk result (λ facts. length facts.items ≤ sum_by told_most modules.now) }
{
    let mut facts = Vec::new(alloc);
    for (number, placed) in modules.iter().enumerate() {
        add_module(alloc, &mut facts, imports, classes, number as u32, placed)?;
    }
    Ok(facts)
}
