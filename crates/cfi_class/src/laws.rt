//! What holds of labels.

ghost use Rattle.std.specs.Prelude.{◌≡◌, List};
ghost use Rattle.cfi_word.specs.declared.lists.Edge.{Edge};
ghost use Rattle.cfi_word.specs.declared.lists.Labels.{Labels};
ghost use Rattle.cfi_class.specs.Kept.{AreKept};

/// Which labels of edges keep old ones is determined.
pub fn kept_labels_are_one()
    ensures { (edges : List Edge) (old one other : Labels) → AreKept edges old one
        → AreKept edges old other → one ≡ other }
{}
