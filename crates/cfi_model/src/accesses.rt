//! A guest's loads of shared words, as the raw machine takes them.

ghost use Rattle.std.specs.Prelude.{ℕ, ◌/◌, ◌<◌, [], ◌∷◌, List, length};
ghost use Rattle.cfi_unit.specs.declared.fill.Fill.{Fill};
ghost use Rattle.cfi_word.specs.declared.lists.Image.{Image};
ghost use Rattle.cfi_model.specs.Accesses.{AccessesFit, AccessesJoin, AllFind, TriesAreFair, fetch_of};
ghost use Rattle.cfi_model.specs.History.{fixed};
ghost use Rattle.cfi_model.specs.Raw.{raw_opened};

/// What a guest loads from first to last, with the answers to its opens, is what the law of the raw machine takes.
///
/// `fits`: words of the history that the machine asks for fit, where the list is fair: a Tary word with the version of
/// the Bary word that was loaded last since a load of EPOCH has its epoch. `tries`: a list is fair only where each of
/// its tries is. `joins`: a list that goes on brings what it brought, and then the rest. `some`: a guest over one image
/// finds its first word.
pub fn accesses_are_taken()
    ensures fits { AccessesFit }
    ensures tries { TriesAreFair }
    ensures joins { AccessesJoin }
    ensures some { (image : Image) (number entry : ℕ) (fills : List Fill) →
        entry / 4 < length image.code →
        AllFind (fixed image) image.code (raw_opened number entry fills) []
        (fetch_of image (entry / 4) ∷ []) }
{}
