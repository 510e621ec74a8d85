ghost use Rattle.std.specs.Prelude.{All, ◌↔◌, IsTrue};
ghost use Rattle.cfi_request.specs.Words.{IsOperand, texts};

// Whether the word is no option.
fn is_operand(word: &str) -> bool
    ensures { IsTrue result ↔ IsOperand word.now }
{
    match word.as_bytes() {
        [] => false,
        [first, ..] => *first != b'-',
    }
}

/// Whether no word is an option.
pub fn are_operands(words: &[String]) -> bool
    ensures { IsTrue result ↔ All IsOperand (texts words.now) }
{
    for word in words {
        if !is_operand(word.as_str()) {
            return false;
        }
    }
    true
}
