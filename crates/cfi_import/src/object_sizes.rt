//! How much an object has.

ghost use Rattle.std.specs.Prelude.{◌≡◌};
ghost use Rattle.cfi_import.specs.Limit.{module_sizes};

use cfi_aux::Module;

/// How much an object has.
#[derive(Clone, Copy, Debug, PartialEq, Eq)]
pub struct Sizes {
    /// Symbols.
    pub symbols: usize,
    /// Relocations.
    pub relocs: usize,
    /// Bytes of text.
    pub text: usize,
    /// Bytes of data.
    pub static_data: usize,
    /// Nodes of types.
    pub types: usize,
    /// Functions.
    pub functions: usize,
    /// Branches.
    pub branches: usize,
}

/// How much the object of a module has, and its types and records.
pub fn sizes_of(source: &Module) -> Sizes
    ensures { result ≡ module_sizes source.now }
{
    let object = &source.object;
    let records = &source.records;
    Sizes {
        symbols: object.symbols.len(),
        relocs: object.relocs.len(),
        text: object.text.len(),
        static_data: object.static_data.len(),
        types: source.types.nodes().len(),
        functions: records.functions.len(),
        branches: records.branches.len(),
    }
}
