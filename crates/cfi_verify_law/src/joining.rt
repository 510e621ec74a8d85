//! What holds of a module behind others.

ghost use Rattle.std.specs.Prelude.{◌≡◌, ◌≢◌, ◌⊎◌, ℕ, List, take, slice_index};
ghost use Rattle.cfi_word.specs.declared.lists.Image.{Image};
ghost use Rattle.cfi_model.specs.Closed.{IsStartIn};
ghost use Rattle.cfi_modules.specs.Loaded.{AreLoaded, IsLoadedImage};
ghost use Rattle.cfi_aux.specs.declared.modules.Module.{Module};
ghost use Rattle.cfi_aux.specs.declared.placed.Placed.{Placed};
ghost use Rattle.cfi_modules.specs.declared.fault.JoinFault.{JoinFault};
ghost use Rattle.cfi_modules.specs.declared.fault.JoinFault.TheVariants.{Memory};
ghost use Rattle.cfi_modules.specs.Order.{Joins, IsJoinFault};

/// A module joins those before it, or it has a fault other than a want of memory: with `one_answer` of `cfi_modules`,
/// exactly one placed module or exactly one such fault, and never both.
pub fn joins_or_has_a_fault()
    ensures { (code_words : ℕ) (before live : List Placed) (m : Module) →
        ((p : Placed) × Joins code_words before live m p)
        ⊎ ((fault : JoinFault) × (fault ≢ Memory) × IsJoinFault code_words before live m fault) }
{}

/// With more modules nothing is taken back: a word of an image's code that is not 0 stands in each image of all
/// modules, and a start stays a start.
pub fn more_modules_keep()
    ensures words { (code_words n : ℕ) (ms live later : List Placed) (a b : Image) →
        IsLoadedImage code_words (take n ms) live a → IsLoadedImage code_words ms later b →
        (word : ℕ) → slice_index a.code word ≢ 0
        → slice_index b.code word ≡ slice_index a.code word }
    ensures starts { (code_words n : ℕ) (ms live later : List Placed) (a b : Image) →
        AreLoaded code_words ms → IsLoadedImage code_words (take n ms) live a →
        IsLoadedImage code_words ms later b → (address : ℕ) → IsStartIn a address
        → IsStartIn b address }
{}
