//! Laws of the lines of plans.

ghost use Rattle.std.specs.Prelude.{◌≡◌, ℕ, List, Some, IfSome};
ghost use Rattle.cfi_plan.specs.declared.line.Line.{Line};
ghost use Rattle.cfi_plan.specs.Line.{form_of};
ghost use Rattle.cfi_plan_law.specs.Written.{words_of, CanBeSaid, Says};

/// A line is read of the words that are written for it, and of no others.
pub fn lines_are_written()
    ensures back { (line : Line) → CanBeSaid line → form_of (words_of line) ≡ Some line }
    ensures alone { (words : List (List ℕ)) → IfSome (form_of words) (Says words) }
{}
