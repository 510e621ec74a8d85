//! What holds of modules in order.

ghost use Rattle.std.specs.Prelude.{◌≡◌, ◌≢◌, ℕ, Bool, List, [], ◌∷◌, length, take, All};
ghost use Rattle.cfi_model.specs.Data.{LiesInData};
ghost use Rattle.cfi_modules.specs.Fills.{fills_of};
ghost use Rattle.cfi_aux.specs.declared.modules.Module.{Module};
ghost use Rattle.cfi_aux.specs.declared.placed.Placed.{Placed};
ghost use Rattle.cfi_graph.specs.Cell.{cells_of, HasData};
ghost use Rattle.cfi_graph.specs.Live.{live_of};
ghost use Rattle.cfi_graph.specs.Reading.{HaveGraph};
ghost use Rattle.cfi_graph.specs.Shaped.{AreShaped, IsShaped};
ghost use Rattle.cfi_policy.specs.Image.{HaveImage};
ghost use Rattle.cfi_verify.specs.Example.{loop_module};
ghost use Rattle.cfi_word.specs.declared.limits.TheConstants.{MIN_CODE_WORDS};
ghost use Rattle.cfi_modules.specs.Loaded.{AreLoaded, IsLoadedImage, HaveClosedImages, HaveStarts};
ghost use Rattle.cfi_modules.specs.Entry.{HasAddresses, IsEntryIn};
ghost use Rattle.cfi_model.specs.Closed.{IsStartIn};
ghost use Rattle.cfi_word.specs.declared.lists.Image.{Image};
ghost use Rattle.cfi_modules.specs.Growth.{IsHistoryOf, HasNumbers};
ghost use Rattle.cfi_model.specs.History.{History, IsHistory};
ghost use Rattle.cfi_policy.specs.Code.{IsCodeOf};
ghost use Rattle.cfi_modules.specs.declared.fault.JoinFault.{JoinFault};
ghost use Rattle.cfi_modules.specs.declared.fault.JoinFault.TheVariants.{Memory};
ghost use Rattle.cfi_modules.specs.Order.{Joins, IsJoinFault};
ghost use Rattle.cfi_modules.specs.Series.{CanBeTaken, IsSeries};

use cfi_graph::{live_are_apart, shaped_are_apart};

/// Modules that were loaded one after the other are shaped.
pub fn loaded_are_shaped()
    ensures { (code_words : ℕ) (ms : List Placed) → AreLoaded code_words ms → AreShaped ms }
{}

/// An image can be made of them, where a graph can: no direct edge leads past the code, since no module ends in a call.
pub fn loaded_have_image()
    ensures { (code_words : ℕ) (ms : List Placed) →
        AreLoaded code_words ms → HaveGraph ms → HaveImage ms code_words }
{}

/// And so can one be made of the live ones.
pub fn live_have_images()
    ensures { (code_words : ℕ) (ms : List Placed) (flags : List Bool) →
        AreLoaded code_words ms → HaveGraph ms → HaveImage (live_of ms flags) code_words }
{
    live_are_apart();
}

/// Each image of them is closed, whichever class numbers it has: every unit at a start leads to starts, and so does
/// every direct edge.
pub fn loaded_have_closed_images()
    ensures { (code_words : ℕ) (ms : List Placed) →
        AreLoaded code_words ms → HaveClosedImages code_words ms }
{}

/// Where control may come to is a start of each image of them.
pub fn loaded_have_starts()
    ensures { (code_words : ℕ) (ms : List Placed) →
        AreLoaded code_words ms → HaveStarts code_words ms }
{}

/// Their functions have addresses of 32 bits, and an entry that is found in the first of them is a start of each image.
pub fn loaded_have_entries()
    ensures addresses { (code_words : ℕ) (ms : List Placed) →
        AreLoaded code_words ms → All HasAddresses ms }
    ensures starts { (code_words : ℕ) (ms live : List Placed) (image : Image) (n : ℕ)
        (name : List ℕ) (address : ℕ) →
        AreLoaded code_words ms → IsLoadedImage code_words ms live image →
        IsEntryIn (take n ms) name address → IsStartIn image address }
{}

/// The images that a growing series makes, one epoch a load and one a refresh, are a history: each is closed, and none
/// takes back a word of the code.
pub fn loaded_make_a_history()
    ensures { (code_words : ℕ) (ms : List Placed) (starts : ℕ) (h : History) (code : List ℕ) →
        AreLoaded code_words ms → IsCodeOf ms code_words code → IsHistoryOf code_words ms starts h →
        HasNumbers h → IsHistory h code }
{}

/// Some list of two modules makes one, of three epochs: the start, a load and a refresh.
pub fn some_modules_make_a_history()
    ensures { (ms : List Placed) × (h : History) × AreLoaded MIN_CODE_WORDS ms ×
        IsHistoryOf MIN_CODE_WORDS ms 1 h × HasNumbers h × (h.count ≡ 3) × (length ms ≡ 2) }
{}

/// The first modules of a series are one, and the data of all lies inside private data.
pub fn series_are_closed_below()
    ensures prefix { (code_words : ℕ) (placed : List Placed) (n : ℕ) →
        IsSeries code_words placed → IsSeries code_words (take n placed) }
    ensures fills { (code_words : ℕ) (placed : List Placed) →
        IsSeries code_words placed → All LiesInData (fills_of placed) }
{}

/// The modules of a series are shaped, their data ends within 32 bits, and their cells lie inside private data, whatever
/// their names mean.
pub fn series_have_cells()
    ensures shaped { (code_words : ℕ) (placed : List Placed) →
        IsSeries code_words placed → All IsShaped placed }
    ensures data { (code_words : ℕ) (placed : List Placed) →
        IsSeries code_words placed → All HasData placed }
    ensures cells { (code_words : ℕ) (live placed : List Placed) →
        IsSeries code_words placed → All LiesInData (cells_of live placed) }
{}

/// Some modules are loaded so: the one module of the one word `j .`.
pub fn some_modules_are_loaded()
    ensures { AreLoaded MIN_CODE_WORDS (loop_module ∷ []) }
{}

/// The modules of a series are loaded one after the other, each verified against some of those before it.
pub fn series_are_loaded()
    ensures { (code_words : ℕ) (placed : List Placed) →
        IsSeries code_words placed → AreLoaded code_words placed }
{}

/// A graph can be made of the modules of a series, whatever their number.
pub fn series_have_graph()
    ensures { (code_words : ℕ) (placed : List Placed) →
        IsSeries code_words placed → HaveGraph placed }
{
    series_are_loaded();
    loaded_are_shaped();
    shaped_are_apart();
}

/// A module joins those before it as one placed module, or has one fault, if memory is there, and never both.
pub fn one_answer()
    ensures one { (code_words : ℕ) (before live : List Placed) (m : Module) (p q : Placed) →
        Joins code_words before live m p → Joins code_words before live m q → p ≡ q }
    ensures fault { (code_words : ℕ) (before live : List Placed) (m : Module) (a b : JoinFault) →
        IsJoinFault code_words before live m a → IsJoinFault code_words before live m b →
        a ≢ Memory → b ≢ Memory → a ≡ b }
    ensures never { (code_words : ℕ) (before live : List Placed)
        (m : Module) (p : Placed) (fault : JoinFault) →
        Joins code_words before live m p → IsJoinFault code_words before live m fault →
        fault ≡ Memory }
{}

/// Some module can be taken.
pub fn some_module_can_be_taken()
    ensures { (m : Module) × CanBeTaken m }
{}

/// Some series has a module.
pub fn some_series_has_a_module()
    ensures { (placed : Placed) × IsSeries 1024 (placed ∷ []) }
{}
