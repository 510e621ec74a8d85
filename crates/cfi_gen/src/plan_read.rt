//! What the text of a drawn plan is read as.

ghost use Rattle.std.specs.Prelude.{◌≡◌, ◌≤◌, ℕ, length, Ok};
ghost use Rattle.cfi_gen.specs.Plan.{plan_text};
ghost use Rattle.cfi_gen.specs.declared.shape.TheConstants.{MAX_COUNT, MIN_COUNT};
ghost use Rattle.cfi_gen.specs.PlanRead.{drawn_plan};
ghost use Rattle.cfi_plan.specs.Reading.{plan_in};
ghost use Rattle.cfi_word.specs.declared.limits.TheConstants.{MAX_FILE_BYTES};

/// The text of a drawn plan is read as the plan that it is for, and is no longer than a file.
pub fn plans_are_read()
    ensures is { (count : ℕ) → MIN_COUNT ≤ count → count ≤ MAX_COUNT →
        plan_in (plan_text count) ≡ Ok (drawn_plan count) }
    ensures short { (count : ℕ) → MIN_COUNT ≤ count → count ≤ MAX_COUNT →
        length (plan_text count) ≤ MAX_FILE_BYTES }
    ensures count { (count : ℕ) → MIN_COUNT ≤ count → count ≤ MAX_COUNT →
        length (drawn_plan count).modules ≡ count }
{}
