//! Laws of what assembling, instrumenting, linking and giving stubs make.

ghost use Rattle.std.specs.Prelude.{◌≡◌, ℕ, ◌≤◌, List, length, All, Ok, None};
ghost use Rattle.cfi_word.specs.declared.limits.TheConstants.{MAX_FILE_BYTES};
ghost use Rattle.elf_read.specs.Fault.{IsObject};
ghost use Rattle.elf_read.specs.declared.object.Object.{Object};
ghost use Rattle.elf_write.specs.Limits.{IsWithinLimits};
ghost use Rattle.elf_write.specs.Whole.{IsWhole};
ghost use Rattle.cfi_aux.specs.Modules.{IsModuleOf};
ghost use Rattle.cfi_aux.specs.Sound.{IsSoundModule};
ghost use Rattle.cfi_aux.specs.declared.modules.Module.{Module};
ghost use Rattle.cfi_import.specs.Stubbed.{IsStubbed, stubs_pass};
ghost use Rattle.cfi_instr.specs.Output.{IsInstrumented};
ghost use Rattle.cfi_link.specs.Linked.{AreModules, Linked};
ghost use Rattle.cfi_made_law.specs.Order.{object_of_file};
ghost use Rattle.cfi_made_law.specs.Read.{IsReadOf};
ghost use Rattle.rv_asm.specs.Assembled.{object_in};

use cfi_aux::what_is_read_is_sound;

/// Instrumenting a sound module makes a sound one.
pub fn instrumented_are_sound()
    ensures { (source out : Module) → IsSoundModule source → IsInstrumented source out →
        IsSoundModule out }
{}

/// Linking sound modules makes a sound one.
pub fn linked_are_sound()
    ensures { (modules : List Module) (output : Module) → AreModules modules →
        Linked modules output → IsSoundModule output }
{}

/// What is made by instrumenting a module that was read of a file is within the limits of a written one.
pub fn instrumented_are_within_limits()
    ensures { (source out : Module) → IsReadOf source → IsInstrumented source out →
        IsWithinLimits out.object }
{
    what_is_read_is_sound();
}

/// What is made by linking modules that were read of files is within the limits of a written one.
pub fn linked_are_within_limits()
    ensures { (modules : List Module) (output : Module) → All IsReadOf modules →
        AreModules modules → Linked modules output → IsWithinLimits output.object }
{
    what_is_read_is_sound();
}

/// What is made of a source that is no longer than a file is within the limits of a written one.
pub fn assembled_are_within_limits()
    ensures { (text : List ℕ) (object : Object) → length text ≤ MAX_FILE_BYTES →
        object_in text ≡ Ok object → IsWithinLimits object }
{}

/// What is made of a source that is no longer than a file can be a file, once its relocations are in a file's order.
pub fn assembled_are_whole()
    ensures { (text : List ℕ) (object : Object) → length text ≤ MAX_FILE_BYTES →
        object_in text ≡ Ok object → IsWhole (object_of_file object) }
{}

/// Giving stubs to a sound module makes a sound one.
pub fn stubbed_are_sound()
    ensures { (source out : Module) → IsSoundModule source → stubs_pass source ≡ None →
        IsStubbed source out → IsSoundModule out }
{}

/// What is made by giving stubs to a module that was read of a file is within the limits of a written one.
pub fn stubbed_are_within_limits()
    ensures { (source out : Module) → IsReadOf source → stubs_pass source ≡ None →
        IsStubbed source out → IsWithinLimits out.object }
{
    what_is_read_is_sound();
}
