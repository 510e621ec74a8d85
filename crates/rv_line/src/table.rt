//! Tables of words.

ghost use Rattle.std.specs.Prelude.{◌≡◌};
ghost use Rattle.std.specs.Str.{bytes_eq};
ghost use Rattle.rv_line.specs.Table.{first_named};

/// Whether the word is this name.
pub fn is_named(word: &[u8], name: &str) -> bool
    ensures { result ≡ bytes_eq word.now name.now }
{
    word == name.as_bytes()
}

/// What the first row of this name says.
#[tactic(auto, unfolding(crate::specs::Table::first_named))]
pub fn found_in<T: Copy>(word: &[u8], rows: &[(&str, T)]) -> Option<T>
    ensures { result ≡ first_named word.now rows.now }
{
    let mut rows = rows;
    while let [row, rest @ ..] = rows {
        if row.0.as_bytes() == word {
            return Some(row.1);
        }
        rows = rest;
    }
    None
}
