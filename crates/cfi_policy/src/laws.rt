//! What holds of images and groups.

ghost use Rattle.std.specs.Prelude.{◌≡◌, ◌↔◌, ℕ, ◌+◌, ◌<◌, ◌≤◌, List, [], ◌∷◌, length, All};
ghost use Rattle.std.specs.List.{Contains};
ghost use Rattle.cfi_word.specs.Table.{slots_of};
ghost use Rattle.cfi_aux.specs.declared.placed.Placed.{Placed};
ghost use Rattle.cfi_graph.specs.Direct.{DirectEdge, Allowed};
ghost use Rattle.cfi_graph.specs.Reading.{HaveGraph};
ghost use Rattle.cfi_policy.specs.declared.group.Group.{Group};
ghost use Rattle.cfi_policy.specs.Group.{AreGroups};
ghost use Rattle.cfi_policy.specs.Image.{HaveImage};
ghost use Rattle.cfi_word.specs.declared.lists.Edge.{Edge};
ghost use Rattle.cfi_word.specs.Chain.{Chain};
ghost use Rattle.cfi_class.specs.Labels.{HasEdge, AreLabels};
ghost use Rattle.cfi_policy.specs.Spans.{Spans};
ghost use Rattle.cfi_policy.specs.Book.{labels_of, KeepsNumbers};
ghost use Rattle.cfi_word.specs.declared.lists.Image.{Image};

use cfi_class::kept_labels_are_one;

/// Few edges that span many have the same chains, and their labels are those of the many.
pub fn few_span_many()
    ensures chains { (few many : List Edge) → Spans (HasEdge few) (HasEdge many) →
        (slot address : ℕ) → Chain (HasEdge few) slot address ↔ Chain (HasEdge many) slot address }
    ensures labels { (few many : List Edge) → Spans (HasEdge few) (HasEdge many) →
        (code_words : ℕ) (tary bary : List ℕ) → AreLabels (HasEdge few) code_words tary bary →
        AreLabels (HasEdge many) code_words tary bary }
{}

/// Modules of which a graph can be made have an image where they end before the last code word, and their slots within
/// those of the table.
pub fn low_modules_have_image()
    ensures { (ms : List Placed) (code_words : ℕ) → HaveGraph ms →
        All (λ m. m.base + length m.words < code_words) ms →
        All (λ m. m.slot_base + length m.branches ≤ slots_of code_words) ms →
        HaveImage ms code_words }
{}

/// Some module has an image.
pub fn some_module_has_image()
    ensures { (m : Placed) × HaveImage (m ∷ []) 1024 }
{}

/// What the groups of modules are is determined; a chain of direct edges joins what is in one of them; and each address
/// that some branch may go to is in exactly one.
pub fn groups_are_one()
    ensures same { (ms : List Placed) (one other : List Group) → AreGroups ms one →
        AreGroups ms other → one ≡ other }
    ensures joined { (ms : List Placed) (groups : List Group) → AreGroups ms groups →
        (group : Group) (slot address : ℕ) → Contains groups group → Contains group.branches slot →
        Contains group.targets address → Allowed ms slot address }
    ensures shared { (ms : List Placed) (groups : List Group) → AreGroups ms groups →
        (one other : Group) (address : ℕ) → Contains groups one → Contains groups other →
        Contains one.targets address → Contains other.targets address → one ≡ other }
    ensures reached { (ms : List Placed) (groups : List Group) → AreGroups ms groups →
        HaveGraph ms → (slot address : ℕ) → DirectEdge ms slot address →
        (group : Group) × Contains groups group × Contains group.targets address }
{}

/// Which class numbers of modules keep those of an image is determined.
pub fn kept_images_are_one()
    ensures { (ms : List Placed) (old one other : Image) → KeepsNumbers ms old one →
        KeepsNumbers ms old other → labels_of one ≡ labels_of other }
{
    kept_labels_are_one();
}
