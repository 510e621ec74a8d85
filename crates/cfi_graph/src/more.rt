//! What one module more tells behind others.

ghost use Rattle.std.specs.Prelude.{◌≡◌, ℕ, ◌+◌, ◌<◌, ◌^◌, List, length, false, None, All, IfOk, OnOk};
ghost use Rattle.std.specs.List.{AllPairs};
ghost use Rattle.cfi_word.specs.declared.limits.TheConstants.{MAX_CODE_WORDS};
ghost use Rattle.cfi_aux.specs.declared.records.Kind.TheVariants.{Import};
ghost use Rattle.cfi_graph.specs.declared.fact.Fact.{Fact as AnyFact};
ghost use Rattle.cfi_graph.specs.Code.{Stands};
ghost use Rattle.cfi_graph.specs.Facts.{Adds};
ghost use Rattle.cfi_graph.specs.More.{IsMetBranch, IsMetFact, MeetsOwn, OneMeetsOwn};
ghost use Rattle.cfi_graph.specs.Reading.{CanBeRead};
ghost use Rattle.cfi_graph.specs.Shaped.{IsShaped, FunctionPrecedes};
ghost use Rattle.cfi_graph.specs.inner.Imports.{imports_in};
ghost use Rattle.cfi_graph.specs.inner.More.{AreMoreFacts};
ghost use Rattle.cfi_graph.specs.inner.Names.{AreMarked};

use crate::branch_facts::add_import;
use crate::fact::Fact;
use crate::facts::add_module;
use crate::imports::{Imports, exports_of, imports_named};
use crate::marks::Marks;
use crate::names::{marks_of, names_with};
use crate::place::kind_of;
use crate::spot::spots;
use cfi_aux::{Kind, Placed};
use cfi_types::Classes;
use cfi_unit::{Spot, Unit};
use std::alloc::{AllocError, Global};

// Adds what a branch tells that imports a name which led nowhere before.
fn add_met_branch(
    facts: &mut Vec<Fact>,
    before: &Imports,
    own: &Imports,
    placed: &Placed,
    at: u32,
    slot: u32,
    kind: &Kind,
) -> Result<(), AllocError>
    requires order { AllPairs FunctionPrecedes placed.now.functions }
    requires within { placed.now.base + at < MAX_CODE_WORDS }
    ensures { OnOk result (Adds facts.old.items facts.new.items
        (IsMetBranch (imports_in before.now) (imports_in own.now) placed.now at slot kind.now)) }
{
    let Kind::Import { name, .. } = kind else {
        return Ok(());
    };
    if before.find(name.as_str()).is_some() {
        return Ok(());
    }
    add_import(facts, own, placed, at, slot, name)
}

// Adds what a unit tells so.
fn add_met_unit(
    facts: &mut Vec<Fact>,
    before: &Imports,
    own: &Imports,
    placed: &Placed,
    spot: &Spot,
) -> Result<(), AllocError>
    requires shaped { IsShaped placed.now }
    requires stands { Stands placed.now spot.now.at spot.now.unit }
    ensures { OnOk result (Adds facts.old.items facts.new.items
        (IsMetFact (imports_in before.now) (imports_in own.now) placed.now spot.now.at
        spot.now.unit)) }
{
    let Unit::Check { slot, .. } = spot.unit else {
        return Ok(());
    };
    let Some(kind) = kind_of(placed, slot) else {
        return Ok(());
    };
    add_met_branch(facts, before, own, placed, spot.at, slot, kind)
}

// Whether a branch imports a name that only own functions have, which have the marks.
fn meets_own(before: &Imports, marks: &Marks, own: &Imports, kind: &Kind) -> bool
    requires { AreMarked marks.now (imports_in own.now) }
    ensures { result ≡ false → (name : List ℕ) (cell : ℕ) → kind.now ≡ Import name cell →
        imports_in before.now name ≡ None → imports_in own.now name ≡ None }
{
    match kind {
        Kind::Import { name, .. } => {
            marks.has(name.as_str())
                && own.find(name.as_str()).is_some()
                && before.find(name.as_str()).is_none()
        }
        Kind::Call(_) | Kind::Tail(_) | Kind::Return | Kind::Switch(_) => false,
    }
}

// Whether a branch of the module does.
fn some_meets_own(before: &Imports, marks: &Marks, own: &Imports, placed: &Placed) -> bool
    requires { AreMarked marks.now (imports_in own.now) }
    ensures { result ≡ false → (fact : AnyFact) →
        MeetsOwn (imports_in before.now) (imports_in own.now) placed.now fact → ⊥ }
{
    for kind in placed.branches.as_slice() {
        if meets_own(before, marks, own, kind) {
            return true;
        }
    }
    false
}

// Adds what the units of a module tell so. Its code is read only where a branch of it imports such a name.
fn add_met_units(
    alloc: Global,
    facts: &mut Vec<Fact>,
    before: &Imports,
    marks: &Marks,
    own: &Imports,
    placed: &Placed,
) -> Result<(), AllocError>
    requires shaped { IsShaped placed.now }
    requires marked { AreMarked marks.now (imports_in own.now) }
    ensures { OnOk result (Adds facts.old.items facts.new.items
        (MeetsOwn (imports_in before.now) (imports_in own.now) placed.now)) }
{
    if !some_meets_own(before, marks, own, placed) {
        return Ok(());
    }
    let spots = spots(alloc, placed.words.as_slice())?;
    for spot in &spots {
        add_met_unit(facts, before, own, placed, spot)?;
    }
    Ok(())
}

// Adds what the modules tell so.
fn add_met_modules(
    alloc: Global,
    facts: &mut Vec<Fact>,
    before: &Imports,
    marks: &Marks,
    own: &Imports,
    modules: &[Placed],
) -> Result<(), AllocError>
    requires shaped { All IsShaped modules.now }
    requires marked { AreMarked marks.now (imports_in own.now) }
    ensures { OnOk result (Adds facts.old.items facts.new.items
        (OneMeetsOwn modules.now (imports_in before.now) (imports_in own.now))) }
{
    for placed in modules {
        add_met_units(alloc, facts, before, marks, own, placed)?;
    }
    Ok(())
}

// What the new module tells behind the old ones. Its code alone is read, and that of modules whose imports it meets.
// Names of old functions are looked at only where it imports some, or where branches import names that its own have.
pub(crate) fn more_facts(
    alloc: Global,
    old: &[Placed],
    new: &Placed,
    classes: &Classes,
) -> Result<Vec<Fact>, AllocError>
    requires shaped { All IsShaped old.now }
    requires few { length old.now < 2 ^ 32 }
    requires new { IsShaped new.now }
    requires read { CanBeRead classes.now (length old.now) new.now }
    ensures { IfOk result (λ facts. AreMoreFacts old.now new.now classes.now facts.items) }
{
    let own = exports_of(alloc, new)?;
    let marks = marks_of(alloc, new)?;
    let names = names_with(alloc, old, new, &marks, &own)?;
    let mut imports = imports_named(alloc, old, &names)?;
    let mut facts = Vec::new(alloc);
    add_met_modules(alloc, &mut facts, &imports, &marks, &own, old)?;
    imports.add_named(new, &names)?;
    add_module(alloc, &mut facts, &imports, classes, old.len() as u32, new)?;
    Ok(facts)
}
