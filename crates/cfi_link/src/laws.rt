//! What holds of the definitions, whatever the values.

ghost use Rattle.std.specs.Prelude.{◌≡◌, ℕ, List, Some, slice_index};
ghost use Rattle.std.specs.List.{slice_get};
ghost use Rattle.elf_read.specs.declared.object.Symbol.{Symbol};
ghost use Rattle.cfi_link.specs.Chosen.{in_order, numbers_of};

/// The number that a symbol gets is its place among the symbols of the output.
pub fn numbers_are_places()
    ensures { (symbols : List Symbol) (k : ℕ) (s : Symbol) → slice_get symbols k ≡ Some s →
        slice_get (in_order symbols) (slice_index (numbers_of symbols) k) ≡ Some s }
{}
