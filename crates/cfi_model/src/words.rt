//! What the phases of an update tell of the tables' words.

ghost use Rattle.std.specs.Prelude.{◌≡◌, ◌≢◌, ℕ, ◌+◌, ◌≤◌, slice_index};
ghost use Rattle.cfi_word.specs.declared.lists.Image.{Image};
ghost use Rattle.cfi_word.specs.declared.limits.TheConstants.{MIN_VERSIONS, MAX_VERSIONS, MAX_EPOCH};
ghost use Rattle.cfi_word.specs.Rank.{rank, IsStored};
ghost use Rattle.cfi_word.specs.Table.{IsSize, Place, Epoch, Code, Tary, Bary, IsPlace, word_number};
ghost use Rattle.cfi_model.specs.Closed.{IsClosed};
ghost use Rattle.cfi_model.specs.History.{IsHistory, IsBaryWord, IsTaryWord};
ghost use Rattle.cfi_model.specs.InForce.{GoesOn, history_of, code_in_force, tary_index};
ghost use Rattle.cfi_model.specs.Phases.{phase_of, number_in, one_more};
ghost use Rattle.cfi_model.specs.Running.{Extends, Keeps};
ghost use Rattle.cfi_model.specs.Tables.{IsTables};
ghost use Rattle.cfi_model.specs.Words.{Tables, entry_at, epoch_in_force, newest, number_at, opened_tables};
ghost use Rattle.cfi_model.specs.Words.{policy_in_force, rank_at, word_at, word_of_entry};
ghost use Rattle.cfi_model.specs.World.{first_entry};

/// Which words are new in each phase, and that a store changes its own word alone.
///
/// `phases`: in each phase each word is of the entry that the table of phases names. `same`, `new`: a store leaves all
/// words but the one whose rank is the number of stores made before, and makes that one the newest entry's. `order`:
/// the ranks of places are those of their words.
pub fn phases_tell_words()
    ensures phases { (t : Tables) (place : Place) → IsTables t → IsPlace t.code_words place →
        word_at t place ≡ word_of_entry t (number_in (phase_of t) t place) place }
    ensures same { (t : Tables) (place : Place) → rank_at t.code_words place ≢ t.stored →
        word_at (one_more t) place ≡ word_at t place }
    ensures new { (t : Tables) (place : Place) → rank_at t.code_words place ≡ t.stored →
        word_at (one_more t) place ≡ word_of_entry t (newest t) place }
    ensures order { (code_words : ℕ) (place : Place) → IsPlace code_words place →
        IsStored code_words (word_number code_words place) →
        rank_at code_words place ≡ rank code_words (word_number code_words place) }
{}

/// The epoch in force is that of the entry of which the word EPOCH is, and so is the policy.
pub fn epoch_tells_force()
    ensures epoch { (t : Tables) → IsTables t → epoch_in_force t ≡ t.first + number_at t Epoch }
    ensures policy { (t : Tables) → IsTables t →
        policy_in_force t ≡ (entry_at t (number_at t Epoch)).policy }
{}

/// Tables have a history, of which each loaded word is, and which goes on as they do.
///
/// `bary` and `tary`: what is loaded for a slot and for an address. `code`: what is fetched where the code in force has
/// a word. `extends` and `keeps`: later tables have a longer history, and keep the code.
pub fn tables_have_a_history()
    ensures history { (t : Tables) → IsTables t → IsHistory (history_of t) (code_in_force t) }
    ensures bary { (t : Tables) → IsTables t → (slot : ℕ) →
        IsBaryWord (history_of t) slot (word_at t (Bary slot)) }
    ensures tary { (t : Tables) → IsTables t → (address : ℕ) →
        IsTaryWord (history_of t) address (word_at t (Tary (tary_index t.code_words address))) }
    ensures code { (t : Tables) → IsTables t → (index : ℕ) →
        slice_index (code_in_force t) index ≢ 0 →
        word_at t (Code index) ≡ slice_index (code_in_force t) index }
    ensures extends { (t u : Tables) → IsTables t → IsTables u → GoesOn t u →
        Extends (history_of t) (history_of u) }
    ensures keeps { (t u : Tables) → IsTables t → IsTables u → GoesOn t u →
        Keeps (code_in_force t) (code_in_force u) }
{}

/// The tables of a closed image are such tables.
pub fn opened_tables_are_tables()
    ensures { (code_words versions first : ℕ) (image : Image) → IsSize code_words →
        MIN_VERSIONS ≤ versions → versions ≤ MAX_VERSIONS → first ≤ MAX_EPOCH →
        IsClosed code_words image →
        IsTables (opened_tables code_words versions first (first_entry image)) }
{}
