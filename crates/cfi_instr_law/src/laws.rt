//! Instrumented modules are proper once they are placed.

ghost use Rattle.std.specs.Prelude.{◌≡◌, ◌⊎◌, List};
ghost use Rattle.elf_read.specs.declared.object.Object.{Object};
ghost use Rattle.cfi_aux.specs.Modules.{IsModuleOf};
ghost use Rattle.cfi_aux.specs.declared.modules.Module.{Module};
ghost use Rattle.cfi_aux.specs.declared.placed.Placed.{Placed};
ghost use Rattle.cfi_instr.specs.Output.{IsInstrumented};
ghost use Rattle.cfi_place.specs.declared.room.Room.{Room};
ghost use Rattle.cfi_place.specs.Names.{Names};
ghost use Rattle.cfi_verify.specs.Example.{loop_module};
ghost use Rattle.cfi_verify.specs.Fault.{IsFault};
ghost use Rattle.cfi_verify.specs.declared.fault.VerifyFault.{VerifyFault};
ghost use Rattle.cfi_verify.specs.declared.fault.VerifyFault.TheVariants.{Memory};
ghost use Rattle.cfi_instr_law.specs.Example.{loop_source, loop_room, no_names};
ghost use Rattle.cfi_instr_law.specs.Proper.{IsTyped, IsMadeAt, IsProper, IsTargetFault};

/// What is made of a module with a word of text, and whose functions and branches have types of functions, has no
/// fault at its place but jumps that lead elsewhere, whatever modules are loaded.
///
/// A law about `IsInstrumented`, which `instrument` of `cfi_instr` gives, `IsPlaced`, which `place` of `cfi_place`
/// gives, and the faults that `verify` of `cfi_verify` looks for. MCFI, modular instrumentation and verification.
pub fn instrumented_are_proper()
    ensures { (source m : Module) (room : Room) (names : Names) (placed : Placed) →
        IsMadeAt source m room names placed → (loaded : List Placed) → IsProper placed loaded }
{}

/// What a verifier finds against a proper module is such a jump, unless memory runs out.
///
/// So `verify` answers `Ok`, `Target` or `Memory`: its answer is `IsFault` where it is an error.
pub fn proper_are_refused_for_targets()
    ensures { (m : Placed) (loaded : List Placed) → IsProper m loaded → (fault : VerifyFault) →
        IsFault m loaded fault → (fault ≡ Memory) ⊎ IsTargetFault fault }
{}

/// What is read of a file has types of functions: a law about `IsModuleOf`, which `module_of` of `cfi_aux` gives.
pub fn read_modules_are_typed()
    ensures { (object : Object) (m : Module) → IsModuleOf object m → IsTyped m }
{}

/// Instrumenting a module that has types of functions makes one that has.
pub fn instrumented_stay_typed()
    ensures { (source m : Module) → IsInstrumented source m → IsTyped source → IsTyped m }
{}

/// Some module is so: the one word `j .`.
pub fn some_module_is_instrumented()
    ensures { IsMadeAt loop_source loop_source loop_room no_names loop_module }
{}
