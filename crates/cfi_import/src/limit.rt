//! The first limit that sizes pass.

ghost use Rattle.std.specs.Prelude.{◌≡◌};
ghost use Rattle.cfi_import.specs.Limit.{unless_above, passed};

use crate::object_sizes::Sizes;
use cfi_word::limits::{
    MAX_BRANCHES, MAX_DATA, MAX_FUNCTIONS, MAX_NODES, MAX_RELOCS, MAX_SYMBOLS, MAX_WORDS,
};
use elf_read::Limit;

// The limit that a number passes, else the next one.
fn unless_above(limit: usize, number: usize, what: Limit, next: Option<Limit>) -> Option<Limit>
    ensures { result ≡ unless_above limit number what next }
{
    if number <= limit { next } else { Some(what) }
}

/// The first limit on one object that sizes pass, in the order symbols, relocations, words of text, data, types,
/// functions, branches. `None` where each is kept.
pub fn passed(sizes: Sizes) -> Option<Limit>
    ensures { result ≡ passed sizes }
{
    let next = unless_above(MAX_BRANCHES as usize, sizes.branches, Limit::Branches, None);
    let next = unless_above(
        MAX_FUNCTIONS as usize,
        sizes.functions,
        Limit::Functions,
        next,
    );
    let next = unless_above(MAX_NODES as usize, sizes.types, Limit::Types, next);
    let next = unless_above(MAX_DATA, sizes.static_data, Limit::Data, next);
    let next = unless_above(4 * MAX_WORDS, sizes.text, Limit::Words, next);
    let next = unless_above(MAX_RELOCS, sizes.relocs, Limit::Relocs, next);
    unless_above(MAX_SYMBOLS, sizes.symbols, Limit::Symbols, next)
}
