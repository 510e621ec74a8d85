//! What a verifier finds in a linked module.

ghost use Rattle.std.specs.Prelude.{ℕ, List, [], ◌∷◌};
ghost use Rattle.cfi_aux.specs.declared.modules.Module.{Module};
ghost use Rattle.cfi_aux.specs.declared.placed.Placed.{Placed};
ghost use Rattle.cfi_word.specs.declared.limits.TheConstants.{MIN_CODE_WORDS};
ghost use Rattle.cfi_verify.specs.Example.{loop_module};
ghost use Rattle.cfi_verify.specs.Fault.{IsVerified};
ghost use Rattle.cfi_verify_law.specs.Example.{loop_source, two_linked, second_module, two_module};
ghost use Rattle.cfi_verify_law.specs.Parts.{AreParts};

/// A linked module that has the words of its parts verifies behind the modules behind which they join in order.
///
/// A law about `Linked`, which `link` of `cfi_link` gives, and `Joins`, which joining modules of `cfi_modules` gives.
pub fn linked_verify_where_their_parts_do()
    ensures { (code_words : ℕ) (before : List Placed) (ms : List Module) (output : Module)
        (parts : List Placed) (whole : Placed) →
        AreParts code_words before ms output parts whole → IsVerified whole before }
{}

/// Some modules are so: two of the one word `j .`, linked.
pub fn some_modules_are_linked()
    ensures { AreParts MIN_CODE_WORDS [] (loop_source ∷ loop_source ∷ []) two_linked
        (loop_module ∷ second_module ∷ []) two_module }
{}
