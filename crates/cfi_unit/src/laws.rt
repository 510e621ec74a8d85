//! Laws of the spellings of units.

ghost use Rattle.std.specs.Prelude.{◌≡◌, ℕ, ◌+◌, ◌<◌, ◌≤◌, List, length};
ghost use Rattle.cfi_unit.specs.declared.unit.Unit.{Unit as CodeUnit};
ghost use Rattle.cfi_unit.specs.Unit.{size_of};
ghost use Rattle.cfi_unit.specs.Code.{BeginsAt, UnitCode};

/// At most one unit begins at a place.
pub fn one_unit()
    ensures { (words : List ℕ) (at : ℕ) (u v : CodeUnit) →
        BeginsAt words at u → BeginsAt words at v → u ≡ v }
{}

/// A unit has a word at least, and ends within the words.
pub fn unit_within()
    ensures some { (unit : CodeUnit) → 0 < size_of unit }
    ensures within { (words : List ℕ) (at : ℕ) (unit : CodeUnit) →
        BeginsAt words at unit → at + size_of unit ≤ length words }
{}

/// Words are the code of at most one list of units.
pub fn one_code()
    ensures { (words : List ℕ) (us vs : List CodeUnit) →
        UnitCode words us → UnitCode words vs → us ≡ vs }
{}
