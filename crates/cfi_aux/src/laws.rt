//! What holds of the definitions, whatever the values.

ghost use Rattle.std.specs.Prelude.{ℕ, List};
ghost use Rattle.elf_read.specs.declared.object.Object.{Object};
ghost use Rattle.elf_read.specs.Fault.{IsObject};
ghost use Rattle.elf_read.specs.Sound.{IsSoundObject};

/// Some object is sound: the one that has nothing.
pub fn some_object_is_sound()
    ensures { (object : Object) × IsSoundObject object }
{}

/// What reading an object gives is sound.
pub fn what_is_read_is_sound()
    ensures { (bytes : List ℕ) → (object : Object) → IsObject bytes object → IsSoundObject object }
{}
