//! The limits on one object.

ghost use Rattle.std.specs.Prelude.{◌≡◌};
ghost use Rattle.cfi_link.specs.Joined.{joined_of};
ghost use Rattle.cfi_link.specs.Fault.{sizes_of, unless_above, passed, passed_by};
ghost use Rattle.cfi_link.specs.inner.Capped.{capped_sizes, with_sizes};

use crate::start::gap;
use cfi_aux::Module;
use cfi_word::limits::{
    MAX_BRANCHES, MAX_DATA, MAX_FUNCTIONS, MAX_NODES, MAX_RELOCS, MAX_SYMBOLS, MAX_WORDS,
};
use elf_read::Limit;

/// How much modules have together.
#[derive(Clone, Copy, Debug, PartialEq, Eq)]
pub struct Sizes {
    /// Symbols.
    pub symbols: usize,
    /// Relocations.
    pub relocs: usize,
    /// Bytes of text.
    pub text: usize,
    /// Bytes of data, with the gaps between that of one module and the next.
    pub static_data: usize,
    /// Nodes of types.
    pub types: usize,
    /// Functions.
    pub functions: usize,
    /// Branches.
    pub branches: usize,
}

// The sizes with those of one module more; what is too much for a number stays at the greatest one.
fn with_sizes(sizes: Sizes, added: &Module) -> Sizes
    ensures { result ≡ with_sizes sizes added.now }
{
    let object = &added.object;
    let records = &added.records;
    let data_start = sizes.static_data.saturating_add(gap(sizes.static_data));
    Sizes {
        symbols: sizes
            .symbols
            .saturating_add(object.symbols.as_slice().len()),
        relocs: sizes.relocs.saturating_add(object.relocs.as_slice().len()),
        text: sizes.text.saturating_add(object.text.len()),
        static_data: data_start.saturating_add(object.static_data.len()),
        types: sizes.types.saturating_add(added.types.nodes().len()),
        functions: sizes
            .functions
            .saturating_add(records.functions.as_slice().len()),
        branches: sizes
            .branches
            .saturating_add(records.branches.as_slice().len()),
    }
}

// How much the modules have together, in numbers of the machine.
fn sizes_of(modules: &[Module]) -> Sizes
    ensures { result ≡ capped_sizes (sizes_of (joined_of modules.now)) }
{
    let mut sizes = Sizes {
        symbols: 0,
        relocs: 0,
        text: 0,
        static_data: 0,
        types: 0,
        functions: 0,
        branches: 0,
    };
    for added in modules {
        sizes = with_sizes(sizes, added);
    }
    sizes
}

// The limit that a number passes, else the next one.
fn unless_above(limit: usize, number: usize, what: Limit, next: Option<Limit>) -> Option<Limit>
    ensures { result ≡ unless_above limit number what next }
{
    if number <= limit { next } else { Some(what) }
}

// The first limit that sizes pass.
fn passed(sizes: Sizes) -> Option<Limit>
    ensures { result ≡ passed sizes }
{
    let next = unless_above(MAX_BRANCHES as usize, sizes.branches, Limit::Branches, None);
    let next = unless_above(
        MAX_FUNCTIONS as usize,
        sizes.functions,
        Limit::Functions,
        next,
    );
    let next = unless_above(MAX_NODES as usize, sizes.types, Limit::Types, next);
    let next = unless_above(MAX_DATA, sizes.static_data, Limit::Data, next);
    let next = unless_above(4 * MAX_WORDS, sizes.text, Limit::Words, next);
    let next = unless_above(MAX_RELOCS, sizes.relocs, Limit::Relocs, next);
    unless_above(MAX_SYMBOLS, sizes.symbols, Limit::Symbols, next)
}

/// The first limit on one object that the modules together pass.
pub fn passed_by(modules: &[Module]) -> Option<Limit>
    ensures { result ≡ passed_by modules.now }
{
    passed(sizes_of(modules))
}
