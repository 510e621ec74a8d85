//! Names that branches import.

ghost use Rattle.std.specs.Prelude.{◌≡◌, ℕ, true, List, Some, IsTrue, IfOk, OnOk};
ghost use Rattle.std.specs.List.{Contains};
ghost use Rattle.cfi_aux.specs.declared.placed.Placed.{Placed as PlacedModule};
ghost use Rattle.cfi_aux.specs.declared.records.Kind.TheVariants.{Import};
ghost use Rattle.cfi_graph.specs.Named.{entry_in};
ghost use Rattle.cfi_graph.specs.inner.Imports.{imports_in};
ghost use Rattle.cfi_graph.specs.inner.Names.{has_name, AreMarked, Keeps, HasImports, HasMet};

use crate::imports::Imports;
use crate::marks::Marks;
use cfi_aux::{Kind, Placed};
use std::alloc::{AllocError, Global};
use std::collections::BTreeSet;

/// Names of functions that are looked for.
#[derive(Drop)]
pub(crate) struct Names<'a> {
    names: BTreeSet<&'a str>,
    // Marks of these: a name that has none of them is none of these.
    marks: Marks,
}

impl<'a> Names<'a> {
    // No names.
    fn new(alloc: Global) -> Result<Names<'a>, AllocError> {
        Ok(Names {
            names: BTreeSet::new(alloc),
            marks: Marks::new(alloc)?,
        })
    }

    // Adds a name.
    fn add(&mut self, name: &'a str) -> Result<(), AllocError>
        ensures kept { OnOk result (Keeps self.old self.new) }
        ensures has { OnOk result (IsTrue (has_name self.new name.now)) }
    {
        self.names.insert(name)?;
        self.marks.add(name);
        Ok(())
    }

    /// Whether the name is one of these.
    #[tactic(auto, unfolding(crate::specs::inner::Names::has_name))]
    pub(crate) fn has(&self, name: &str) -> bool
        ensures { result ≡ has_name self.now name.now }
    {
        self.marks.has(name) && self.names.contains(name)
    }

    /// Whether there are none.
    pub(crate) fn is_empty(&self) -> bool
        ensures { result ≡ true → (name : List ℕ) → IsTrue (has_name self.now name) → ⊥ }
    {
        self.names.is_empty()
    }

    // Adds the name that a branch imports.
    fn add_import(&mut self, kind: &'a Kind) -> Result<(), AllocError>
        ensures kept { OnOk result (Keeps self.old self.new) }
        ensures has { OnOk result ((name : List ℕ) (cell : ℕ) → kind.now ≡ Import name cell →
            IsTrue (has_name self.new name)) }
    {
        match kind {
            Kind::Import { name, .. } => self.add(name.as_str()),
            Kind::Call(_) | Kind::Tail(_) | Kind::Return | Kind::Switch(_) => Ok(()),
        }
    }

    // Adds the name that a branch imports, where own functions have it. These have the marks.
    fn add_met(&mut self, marks: &Marks, own: &Imports, kind: &'a Kind) -> Result<(), AllocError>
        requires { AreMarked marks.now (imports_in own.now) }
        ensures kept { OnOk result (Keeps self.old self.new) }
        ensures has { OnOk result ((name : List ℕ) (cell address : ℕ) →
            kind.now ≡ Import name cell → imports_in own.now name ≡ Some address →
            IsTrue (has_name self.new name)) }
    {
        let Kind::Import { name, .. } = kind else {
            return Ok(());
        };
        if !marks.has(name.as_str()) {
            return Ok(());
        }
        if own.find(name.as_str()).is_none() {
            return Ok(());
        }
        self.add(name.as_str())
    }

    // Adds the names that the branches import.
    fn add_imports(&mut self, branches: &'a [Kind]) -> Result<(), AllocError>
        ensures kept { OnOk result (Keeps self.old self.new) }
        ensures has { OnOk result (HasImports self.new branches.now) }
    {
        for kind in branches {
            self.add_import(kind)?;
        }
        Ok(())
    }

    // Adds those that own functions have.
    fn add_all_met(
        &mut self,
        marks: &Marks,
        own: &Imports,
        branches: &'a [Kind],
    ) -> Result<(), AllocError>
        requires { AreMarked marks.now (imports_in own.now) }
        ensures kept { OnOk result (Keeps self.old self.new) }
        ensures has { OnOk result (HasMet self.new (imports_in own.now) branches.now) }
    {
        for kind in branches {
            self.add_met(marks, own, kind)?;
        }
        Ok(())
    }
}

// The marks of the names of a module's functions.
pub(crate) fn marks_of(alloc: Global, placed: &Placed) -> Result<Marks, AllocError>
    ensures { IfOk result (λ marks. AreMarked marks (entry_in placed.now)) }
{
    let mut marks = Marks::new(alloc)?;
    for function in placed.functions.as_slice() {
        marks.add(function.name.as_str());
    }
    Ok(marks)
}

// The names that the modules import.
pub(crate) fn names_in<'a>(alloc: Global, modules: &'a [Placed]) -> Result<Names<'a>, AllocError>
    ensures { IfOk result (λ names. (m : PlacedModule) → Contains modules.now m →
        HasImports names m.branches) }
{
    let mut names = Names::new(alloc)?;
    for placed in modules {
        names.add_imports(placed.branches.as_slice())?;
    }
    Ok(names)
}

// The names whose functions are looked for when a module is added: those that it imports, and those that branches of
// old modules import and its own functions have.
pub(crate) fn names_with<'a>(
    alloc: Global,
    old: &'a [Placed],
    new: &'a Placed,
    marks: &Marks,
    own: &Imports,
) -> Result<Names<'a>, AllocError>
    requires { AreMarked marks.now (imports_in own.now) }
    ensures imports { IfOk result (λ names. HasImports names new.now.branches) }
    ensures met { IfOk result (λ names. (m : PlacedModule) → Contains old.now m →
        HasMet names (imports_in own.now) m.branches) }
{
    let mut names = Names::new(alloc)?;
    names.add_imports(new.branches.as_slice())?;
    for placed in old {
        names.add_all_met(marks, own, placed.branches.as_slice())?;
    }
    Ok(names)
}
