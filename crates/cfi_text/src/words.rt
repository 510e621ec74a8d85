ghost use Rattle.std.specs.Prelude.{◌≡◌, ℕ, ◌+◌, ◌<◌, ◌≤◌, [], ◌∷◌, length, MatchOption, true, false, take, drop, not};
ghost use Rattle.std.specs.List.{position_or_len};
ghost use Rattle.cfi_text.specs.Words.{words_in, is_blank, is_solid, unblanked, first_word, after_word};

/// The first word, and what comes after it. `None` where no word is left.
pub fn next_word(statement: &[u8]) -> Option<(&[u8], &[u8])>
    ensures { MatchOption result (words_in statement.now ≡ [])
        (λ found. words_in statement.now ≡ found.0.now ∷ words_in found.1.now) }
{
    let statement = &statement[blanks(statement)..];
    let end = word_end(statement);
    if end == 0 {
        None
    } else {
        Some((&statement[..end], &statement[end..]))
    }
}

/// The text without the blanks at its front.
pub fn unblanked(text: &[u8]) -> &[u8]
    ensures { result.now ≡ unblanked text.now }
{
    &text[blanks(text)..]
}

/// The first word of a text, and what comes after it; the word is empty where there is none.
pub fn split_word(text: &[u8]) -> (&[u8], &[u8])
    ensures word { result.0.now ≡ first_word text.now }
    ensures rest { result.1.now ≡ after_word text.now }
{
    let text = unblanked(text);
    let end = word_end(text);
    (&text[..end], &text[end..])
}

// How many blanks stand at the front.
fn blanks(statement: &[u8]) -> usize
    ensures place { result ≡ position_or_len is_solid statement.now }
    ensures within { result ≤ length statement.now }
{
    for (at, byte) in statement.iter().enumerate() {
        if !is_blank(*byte) {
            return at;
        }
    }
    statement.len()
}

// The place of the first blank, or the length where there is none.
fn word_end(statement: &[u8]) -> usize
    ensures place { result ≡ position_or_len is_blank statement.now }
    ensures within { result ≤ length statement.now }
{
    for (at, byte) in statement.iter().enumerate() {
        if is_blank(*byte) {
            return at;
        }
    }
    statement.len()
}

fn is_blank(byte: u8) -> bool
    ensures { result ≡ is_blank byte }
{
    byte == b' ' || byte == b'\t'
}
