//! What the check of a branch tells, by the branch's kind.

ghost use Rattle.std.specs.Prelude.{◌≡◌, ℕ, ◌+◌, ◌*◌, ◌<◌, ◌≤◌, ◌++◌, List, length, map, All, OnOk};
ghost use Rattle.std.specs.List.{AllPairs};
ghost use Rattle.cfi_word.specs.declared.limits.TheConstants.{MAX_CODE_WORDS};
ghost use Rattle.cfi_aux.specs.declared.records.Kind.TheVariants.{Call, Tail, Return, Switch, Import};
ghost use Rattle.cfi_graph.specs.declared.fact.TheConstants.{CHECK_WORDS};
ghost use Rattle.cfi_graph.specs.Shaped.{FunctionPrecedes};
ghost use Rattle.cfi_graph.specs.Facts.{ByName, listed_fact, IsBranchFact, Adds};
ghost use Rattle.cfi_graph.specs.Reading.{HasClasses, NamesInside};
ghost use Rattle.cfi_graph.specs.Edges.{entry_count};
ghost use Rattle.cfi_graph.specs.inner.Imports.{imports_in};

use crate::fact::{CHECK_WORDS, Fact};
use crate::imports::Imports;
use crate::place::{first_at, type_node};
use cfi_aux::{Kind, Placed};
use cfi_flow::Link;
use cfi_types::Classes;
use cfi_values::Text;
use std::alloc::AllocError;

// Adds what a call through a pointer tells.
fn add_call(
    facts: &mut Vec<Fact>,
    classes: &Classes,
    number: u32,
    placed: &Placed,
    at: u32,
    slot: u32,
    node: u32,
) -> Result<(), AllocError>
    requires classes { HasClasses classes.now number placed.now }
    requires node { node < length placed.now.types }
    requires within { placed.now.base + at + CHECK_WORDS ≤ MAX_CODE_WORDS }
    ensures adds { OnOk result ((imports : ByName) → Adds facts.old.items facts.new.items
        (IsBranchFact imports classes.now number placed.now at slot (Call node))) }
    ensures few { OnOk result
        (length facts.new.items ≤ length facts.old.items + 2) }
{
    let from = type_node(classes, number, node);
    let to = 4 * (placed.base + at + CHECK_WORDS);
    facts.push(Fact::Pointer(Link { from, to: slot }))?;
    facts.push(Fact::Site(Link { from, to }))?;
    Ok(())
}

// Adds what a tail call through a pointer tells.
fn add_tail(
    facts: &mut Vec<Fact>,
    classes: &Classes,
    number: u32,
    placed: &Placed,
    at: u32,
    slot: u32,
    node: u32,
) -> Result<(), AllocError>
    requires classes { HasClasses classes.now number placed.now }
    requires node { node < length placed.now.types }
    requires order { AllPairs FunctionPrecedes placed.now.functions }
    requires within { placed.now.base + at < MAX_CODE_WORDS }
    ensures adds { OnOk result ((imports : ByName) → Adds facts.old.items facts.new.items
        (IsBranchFact imports classes.now number placed.now at slot (Tail node))) }
    ensures few { OnOk result
        (length facts.new.items ≤ length facts.old.items + 2) }
{
    let to = type_node(classes, number, node);
    facts.push(Fact::Pointer(Link { from: to, to: slot }))?;
    let Some(first) = first_at(placed.functions.as_slice(), at) else {
        return Ok(());
    };
    let from = placed.base + first;
    facts.push(Fact::Arrow(Link { from, to }))?;
    Ok(())
}

// Adds what a return tells.
fn add_return(facts: &mut Vec<Fact>, placed: &Placed, at: u32, slot: u32) -> Result<(), AllocError>
    requires order { AllPairs FunctionPrecedes placed.now.functions }
    requires within { placed.now.base + at < MAX_CODE_WORDS }
    ensures adds { OnOk result ((imports : ByName) (classes : List (List ℕ)) (number : ℕ) →
        Adds facts.old.items facts.new.items
        (IsBranchFact imports classes number placed.now at slot Return)) }
    ensures few { OnOk result
        (length facts.new.items ≤ length facts.old.items + 1) }
{
    let Some(first) = first_at(placed.functions.as_slice(), at) else {
        return Ok(());
    };
    let from = placed.base + first;
    facts.push(Fact::Return(Link { from, to: slot }))?;
    Ok(())
}

// Adds the entries that a branch lists.
fn add_entries(
    facts: &mut Vec<Fact>,
    base: u32,
    slot: u32,
    entries: &[u32],
) -> Result<(), AllocError>
    requires base { base < MAX_CODE_WORDS }
    requires within { All (λ entry. 4 * base + entry < 4 * MAX_CODE_WORDS) entries.now }
    ensures { OnOk result (facts.new.items ≡
        facts.old.items ++ map (listed_fact base slot) entries.now) }
{
    for entry in entries {
        let to = 4 * base + entry;
        facts.push(Fact::Listed(Link { from: slot, to }))?;
    }
    Ok(())
}

// Adds what an import of a name tells.
pub(crate) fn add_import(
    facts: &mut Vec<Fact>,
    imports: &Imports,
    placed: &Placed,
    at: u32,
    slot: u32,
    name: &Text,
) -> Result<(), AllocError>
    requires order { AllPairs FunctionPrecedes placed.now.functions }
    requires within { placed.now.base + at < MAX_CODE_WORDS }
    ensures adds { OnOk result ((classes : List (List ℕ)) (number cell : ℕ) →
        Adds facts.old.items facts.new.items
        (IsBranchFact (imports_in imports.now) classes number placed.now at slot
        (Import name.now cell))) }
    ensures few { OnOk result
        (length facts.new.items ≤ length facts.old.items + 2) }
{
    let Some(entry) = imports.find(name.as_str()) else {
        return Ok(());
    };
    facts.push(Fact::Listed(Link {
        from: slot,
        to: entry,
    }))?;
    let Some(first) = first_at(placed.functions.as_slice(), at) else {
        return Ok(());
    };
    let from = placed.base + first;
    let word = entry / 4;
    facts.push(Fact::Arrow(Link { from, to: word }))?;
    Ok(())
}

// Adds what the check of a branch of this kind tells.
pub(crate) fn add_branch(
    facts: &mut Vec<Fact>,
    imports: &Imports,
    classes: &Classes,
    number: u32,
    placed: &Placed,
    at: u32,
    slot: u32,
    kind: &Kind,
) -> Result<(), AllocError>
    requires classes { HasClasses classes.now number placed.now }
    requires order { AllPairs FunctionPrecedes placed.now.functions }
    requires within { placed.now.base + at + CHECK_WORDS ≤ MAX_CODE_WORDS }
    requires named { NamesInside placed.now.base (length placed.now.types) kind.now }
    ensures adds { OnOk result (Adds facts.old.items facts.new.items
        (IsBranchFact (imports_in imports.now) classes.now number placed.now at slot kind.now)) }
    ensures few { OnOk result
        (length facts.new.items ≤ length facts.old.items + 2 + entry_count kind.now) }
{
    match kind {
        Kind::Call(node) => add_call(facts, classes, number, placed, at, slot, *node),
        Kind::Tail(node) => add_tail(facts, classes, number, placed, at, slot, *node),
        Kind::Return => add_return(facts, placed, at, slot),
        Kind::Switch(entries) => add_entries(facts, placed.base, slot, entries.as_slice()),
        Kind::Import { name, .. } => add_import(facts, imports, placed, at, slot, name),
    }
}
