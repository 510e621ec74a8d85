//! Laws of the listings of words.

ghost use Rattle.std.specs.Prelude.{◌≡◌, ℕ, List, Option};
ghost use Rattle.cfi_unit.specs.declared.unit.Unit.{Unit as CodeUnit};
ghost use Rattle.rv_text.specs.Listing.{ReadAs, IsListing};

/// Words are read as one list of pieces, and have one listing.
pub fn one_listing()
    ensures pieces { (words : List ℕ) (at : ℕ) (ps qs : List (Option CodeUnit)) →
        ReadAs words at ps → ReadAs words at qs → ps ≡ qs }
    ensures text { (words s t : List ℕ) → IsListing words s → IsListing words t → s ≡ t }
{}
