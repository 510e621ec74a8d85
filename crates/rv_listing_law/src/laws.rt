//! Laws of listings, the reader of sources and the assembler.

ghost use Rattle.std.specs.Prelude.{◌≡◌, ◌∷◌, ◌++◌, ℕ, ◌+◌, ◌^◌, ◌<◌, ◌≤◌, List, Some, Ok, codes, length, map, flat_map, All};
ghost use Rattle.cfi_text.specs.Lines.{lines_of};
ghost use Rattle.cfi_word.specs.declared.limits.TheConstants.{MAX_WORDS};
ghost use Rattle.rv_text.specs.Listing.{IsListing};
ghost use Rattle.rv_text.specs.Text.{word_text};
ghost use Rattle.rv_line.specs.Line.{line_in};
ghost use Rattle.rv_names.specs.declared.names.Entry.{Entry};
ghost use Rattle.rv_asm.specs.declared.words.Words.TheVariants.{One};
ghost use Rattle.rv_asm.specs.Assembled.{object_in};
ghost use Rattle.rv_asm.specs.Words.{word_bytes, words_of};
ghost use Rattle.rv_listing_law.specs.Back.{word_statement, word_line, first_line, text_object};

/// The text of a word of 32 bits, with whatever comment after it, is read as the word's statement.
pub fn word_back()
    ensures { (word : ℕ) (comment : List ℕ) → word < 2 ^ 32 →
        line_in (word_text word ++ (codes " #" ++ comment)) ≡ word_line word }
{}

/// A listing of words of 32 bits is read as a source: `.text`, and the statement of each word.
///
/// No line has a label. Offsets and the marks of units stand in comments, so nothing is read of them.
pub fn listing_back()
    ensures { (words text : List ℕ) → All (λ word. word < 2 ^ 32) words → IsListing words text →
        map line_in (lines_of text) ≡ first_line ∷ map word_line words }
{}

/// The assembler makes of a word's statement, wherever it stands and whatever names there are, this word.
pub fn words_back()
    ensures { (table : List Entry) (at word : ℕ) → word < 2 ^ 32 →
        words_of table at (word_statement word) ≡ Some (One word) }
{}

/// A listing of words of 32 bits, at most as many as an object has, is assembled to these words as text.
///
/// The object has nothing else: no data, no symbol, no relocation and no records. Such a listing is short enough for
/// `assemble`.
pub fn object_back()
    ensures same { (words text : List ℕ) → All (λ word. word < 2 ^ 32) words →
        length words ≤ MAX_WORDS → IsListing words text →
        object_in text ≡ Ok (text_object (flat_map word_bytes words)) }
    ensures short { (words text : List ℕ) → length words ≤ MAX_WORDS → IsListing words text →
        length text + 1 < 2 ^ 32 }
{}
