//! Where the imports of modules lead, by the names of functions.

ghost use Rattle.std.specs.Prelude.{◌≡◌, ℕ, List, All, None, Some, if◌then◌else◌, IsTrue, IfOk, OnOk};
ghost use Rattle.std.specs.List.{Contains};
ghost use Rattle.std.specs.Option.{option_or};
ghost use Rattle.std.specs.Str.{bytes_eq};
ghost use Rattle.cfi_graph.specs.Facts.{AreImports};
ghost use Rattle.cfi_graph.specs.Shaped.{IsShaped};
ghost use Rattle.cfi_graph.specs.Named.{entry_by, entry_in, entry_among};
ghost use Rattle.cfi_graph.specs.inner.Imports.{imports_in};
ghost use Rattle.cfi_graph.specs.inner.Names.{has_name};

use crate::names::Names;
use cfi_aux::{Placed, PlacedFunction};
use std::alloc::{AllocError, Global};
use std::collections::BTreeMap;

/// The addresses of global functions by their names: of functions with one name, that of the first.
#[derive(Drop)]
pub(crate) struct Imports<'a> {
    entries: BTreeMap<&'a str, u32>,
}

impl<'a> Imports<'a> {
    // No names.
    #[tactic(auto, unfolding(crate::specs::inner::Imports::imports_in))]
    fn new(alloc: Global) -> Imports<'a>
        ensures { (name : List ℕ) → imports_in result name ≡ None }
    {
        Imports {
            entries: BTreeMap::new(alloc),
        }
    }

    // Adds a name with its address; one that is there keeps its own.
    fn add(&mut self, name: &'a str, entry: u32) -> Result<(), AllocError>
        ensures { OnOk result ((other : List ℕ) → imports_in self.new other ≡
            option_or (imports_in self.old other)
            (if bytes_eq name.now other then Some entry else None)) }
    {
        if self.entries.contains_key(name) {
            return Ok(());
        }
        self.entries.insert(name, entry)?;
        Ok(())
    }

    // Adds a function of a module, if it is global.
    fn add_function(
        &mut self,
        placed: &Placed,
        function: &'a PlacedFunction,
    ) -> Result<(), AllocError>
        requires shaped { IsShaped placed.now }
        requires has { Contains placed.now.functions function.now }
        ensures { OnOk result ((name : List ℕ) → imports_in self.new name ≡
            option_or (imports_in self.old name) (entry_by placed.now name function.now)) }
    {
        if !function.global {
            return Ok(());
        }
        let entry = 4 * (placed.base + function.first);
        self.add(function.name.as_str(), entry)
    }

    // Adds the global functions of a module.
    pub(crate) fn add_module(&mut self, placed: &'a Placed) -> Result<(), AllocError>
        requires { IsShaped placed.now }
        ensures { OnOk result ((name : List ℕ) → imports_in self.new name ≡
            option_or (imports_in self.old name) (entry_in placed.now name)) }
    {
        for function in placed.functions.as_slice() {
            self.add_function(placed, function)?;
        }
        Ok(())
    }

    // Adds those of the module's global functions that have one of the names.
    pub(crate) fn add_named(&mut self, placed: &'a Placed, names: &Names) -> Result<(), AllocError>
        requires { IsShaped placed.now }
        ensures { OnOk result ((name : List ℕ) → IsTrue (has_name names.now name) →
            imports_in self.new name
            ≡ option_or (imports_in self.old name) (entry_in placed.now name)) }
    {
        for function in placed.functions.as_slice() {
            if names.has(function.name.as_str()) {
                self.add_function(placed, function)?;
            }
        }
        Ok(())
    }

    /// The address of the function that a name means, if there is one.
    #[tactic(auto, unfolding(crate::specs::inner::Imports::imports_in))]
    pub(crate) fn find(&self, name: &str) -> Option<u32>
        ensures { result ≡ imports_in self.now name.now }
    {
        self.entries.get(name).copied()
    }
}

// Where the imports of a module's own functions lead.
pub(crate) fn exports_of<'a>(alloc: Global, placed: &'a Placed) -> Result<Imports<'a>, AllocError>
    requires { IsShaped placed.now }
    ensures { IfOk result (λ own. (name : List ℕ) →
        imports_in own name ≡ entry_in placed.now name) }
{
    let mut own = Imports::new(alloc);
    own.add_module(placed)?;
    Ok(own)
}

// Where the imports of the modules lead. Each function is looked at once.
pub(crate) fn imports_of<'a>(
    alloc: Global,
    modules: &'a [Placed],
) -> Result<Imports<'a>, AllocError>
    requires { All IsShaped modules.now }
    ensures named { IfOk result (λ imports. AreImports modules.now (imports_in imports)) }
    ensures among { IfOk result (λ imports. (name : List ℕ) →
        imports_in imports name ≡ entry_among modules.now name) }
{
    let mut imports = Imports::new(alloc);
    for placed in modules {
        imports.add_module(placed)?;
    }
    Ok(imports)
}

// Where the imports of these names lead. Each function is looked at once, and none where there are no names.
pub(crate) fn imports_named<'a>(
    alloc: Global,
    modules: &'a [Placed],
    names: &Names,
) -> Result<Imports<'a>, AllocError>
    requires { All IsShaped modules.now }
    ensures { IfOk result (λ imports. (name : List ℕ) → IsTrue (has_name names.now name) →
        imports_in imports name ≡ entry_among modules.now name) }
{
    let mut imports = Imports::new(alloc);
    if names.is_empty() {
        return Ok(imports);
    }
    for placed in modules {
        imports.add_named(placed, names)?;
    }
    Ok(imports)
}
