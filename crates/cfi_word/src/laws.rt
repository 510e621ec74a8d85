ghost use Rattle.std.specs.Prelude.{◌≡◌, ℕ, ◌+◌, ◌*◌, ◌%◌, ◌<◌};
ghost use Rattle.cfi_word.specs.Ids.{IsField, id_of, class_in, version_in, low_half};
ghost use Rattle.cfi_word.specs.Word.{IsPackable, packed, id_in, policy_in, epoch_in};
ghost use Rattle.cfi_word.specs.Table.{Place, IsPlace, IsInArea, word_number, word_count, slots_of};
ghost use Rattle.cfi_word.specs.Table.{code_word, tary_word, bary_word};
ghost use Rattle.cfi_word.specs.declared.layout.TheConstants.{EPOCH};
ghost use Rattle.cfi_word.specs.Rank.{rank, IsStored, stores_of};

/// The fields of an ID read back, and its low half tells the version and nothing else.
pub fn id_laws()
    ensures class { (class version : ℕ) → IsField class → IsField version
        → class_in (id_of class version) ≡ class }
    ensures version { (class version : ℕ) → IsField version
        → version_in (id_of class version) ≡ version }
    ensures low { (class other version : ℕ)
        → low_half (id_of class version) ≡ low_half (id_of other version) }
    ensures versions { (class other old new : ℕ) → IsField old → IsField new
        → low_half (id_of class old) ≡ low_half (id_of other new) → old ≡ new }
    ensures classes { (class other version : ℕ) → IsField class → IsField other
        → id_of class version ≡ id_of other version → class ≡ other }
{}

/// The fields of a table word read back.
pub fn word_laws()
    ensures id { (epoch policy class versions : ℕ) → IsPackable epoch policy class versions
        → id_in (packed epoch policy class versions) ≡ id_of class (epoch % versions) }
    ensures policy { (epoch policy class versions : ℕ) → IsPackable epoch policy class versions
        → policy_in (packed epoch policy class versions) ≡ policy }
    ensures epoch { (epoch policy class versions : ℕ) → IsPackable epoch policy class versions
        → epoch_in (packed epoch policy class versions) ≡ epoch }
{}

/// Each place of the table has a word of its own.
pub fn layout_laws()
    ensures within { (code_words : ℕ) (place : Place) → IsPlace code_words place
        → word_number code_words place < word_count code_words }
    ensures apart { (code_words : ℕ) (one other : Place)
        → IsPlace code_words one → IsPlace code_words other
        → word_number code_words one ≡ word_number code_words other → one ≡ other }
    ensures areas { (code_words : ℕ) (place : Place) → IsPlace code_words place
        → IsInArea code_words place (word_number code_words place) }
    ensures all { (code_words word : ℕ) → word < word_count code_words
        → (place : Place) × IsPlace code_words place × (word_number code_words place ≡ word) }
{}

/// The order of an update's stores: CODE, TARY, EPOCH, BARY.
pub fn rank_laws()
    ensures code { (code_words index : ℕ) → index < code_words
        → rank code_words (code_word index) ≡ index }
    ensures tary { (code_words index : ℕ) → index < code_words
        → rank code_words (tary_word code_words index) ≡ code_words + index }
    ensures epoch { (code_words : ℕ) → rank code_words EPOCH ≡ 2 * code_words }
    ensures bary { (code_words slot : ℕ)
        → rank code_words (bary_word code_words slot) ≡ 2 * code_words + 1 + slot }
    ensures within { (code_words word : ℕ) → IsStored code_words word
        → rank code_words word < stores_of code_words }
    ensures apart { (code_words one other : ℕ)
        → IsStored code_words one → IsStored code_words other
        → rank code_words one ≡ rank code_words other → one ≡ other }
{}
