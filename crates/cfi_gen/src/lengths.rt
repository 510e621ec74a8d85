//! How long the sources are.

ghost use Rattle.std.specs.Prelude.{ℕ, ◌<◌, ◌≤◌, ◌^◌, length};
ghost use Rattle.cfi_gen.specs.Drawn.{AreFunctions};
ghost use Rattle.cfi_gen.specs.Source.{source_text};
ghost use Rattle.cfi_gen.specs.declared.shape.Drawn.{Drawn};
ghost use Rattle.cfi_word.specs.declared.limits.TheConstants.{MAX_FILE_BYTES};

/// The source of a module that was drawn, of 32 at most, is no longer than a file.
pub fn sources_are_short()
    ensures { (count : ℕ) → (drawn : Drawn) → count ≤ 32 → drawn.number < 2 ^ 64 →
        AreFunctions drawn.functions → length (source_text count drawn) ≤ MAX_FILE_BYTES }
{}
