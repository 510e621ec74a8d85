//! That there are bare files.

ghost use Rattle.std.specs.Prelude.{[], ◌∷◌};
ghost use Rattle.cfi_bare.specs.File.{IsBareFile};
ghost use Rattle.cfi_bare.specs.Modules.{bare_module};

/// The bytes of the one word `j .` are a bare file.
pub fn some_file_is_bare()
    ensures { let bytes = 0x6f ∷ 0 ∷ 0 ∷ 0 ∷ [] in IsBareFile bytes (bare_module bytes) }
{}
