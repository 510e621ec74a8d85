//! How much a module with stubs has.

ghost use Rattle.std.specs.Prelude.{◌≡◌};
ghost use Rattle.cfi_import.specs.inner.Capped.{sizes_more, sizes_with};

use crate::object_sizes::Sizes;
use crate::start::{CELL_BYTES, STUB_BYTES, STUB_SYMBOLS, padding};

// Sizes with those of so many stubs; what is too much for a number stays at the greatest one.
fn sizes_more(sizes: Sizes, count: usize) -> Sizes
    ensures { result ≡ sizes_more sizes count }
{
    let cells = sizes.static_data.saturating_add(padding(sizes.static_data));
    Sizes {
        symbols: sizes
            .symbols
            .saturating_add(count.saturating_mul(STUB_SYMBOLS as usize)),
        relocs: sizes.relocs.saturating_add(count.saturating_mul(2)),
        text: sizes
            .text
            .saturating_add(count.saturating_mul(STUB_BYTES as usize)),
        static_data: cells.saturating_add(count.saturating_mul(CELL_BYTES as usize)),
        types: sizes.types.saturating_add(2),
        functions: sizes.functions.saturating_add(count),
        branches: sizes.branches.saturating_add(count),
    }
}

/// The sizes of a module with so many stubs, where it has these without them.
pub fn sizes_with(sizes: Sizes, count: usize) -> Sizes
    ensures { result ≡ sizes_with sizes count }
{
    if count == 0 {
        sizes
    } else {
        sizes_more(sizes, count)
    }
}
