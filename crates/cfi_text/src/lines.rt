//! The lines of a text.
ghost use Rattle.std.specs.Prelude.{◌≡◌, ◌+◌, ◌^◌, ◌<◌, ◌≤◌, ◌==◌, ◌∷◌, length, position, IfSome};
ghost use Rattle.std.specs.List.{position_or_len};
ghost use Rattle.std.specs.Str.Lines.{strip_carriage_return};
ghost use Rattle.std.specs.Iterator.{YieldsFirstBy, item_count};
ghost use Rattle.cfi_text.specs.Lines.{lines_of, numbered_lines, statement_of};

use std::marker::Model;

/// The lines of a text that are left, with their numbers from 1.
///
/// A line is given without the 0x0a that ends it, and with all its other bytes: `statement` cuts
/// what is ignored.
#[derive(Debug, Drop)]
pub struct Lines<'a> {
    text: &'a [u8],
    number: u32,
}

impl<'a> Model for Lines<'a> {
    ghost use Rattle.std.specs.Prelude.{ℕ, ◌+◌, ◌^◌, ◌<◌, List, length};
    ghost use Rattle.std.specs.List.{enumerate_from};
    ghost use Rattle.cfi_text.specs.Lines.{lines_of};

    ghost Value = { List (ℕ × List ℕ) };

    ghost view = { λ lines. enumerate_from (lines.number + 1) (lines_of lines.text.now) };

    ghost invariant = { λ lines. lines.number + length lines.text.now < 2 ^ 32 };
}

impl<'a> Lines<'a> {
    /// The lines of a text of less than 2 ^ 32 bytes.
    pub fn new(text: &'a [u8]) -> Self
        requires { length text.now < 2 ^ 32 }
        ensures { result ≡ numbered_lines text.now }
    {
        Lines { text, number: 0 }
    }
}

impl<'a> Iterator for Lines<'a> {
    type Item = (u32, &'a [u8]);

    ghost next_gives = { YieldsFirstBy (λ line. (line.0, line.1.now)) (λ lines. lines) };

    ghost remaining = { item_count (λ lines. lines) };

    /// The next line with its number, and `None` where no line is left.
    fn next(&mut self) -> Option<(u32, &'a [u8])> {
        if self.text.is_empty() {
            return None;
        }
        let (line, rest) = split_line(self.text);
        self.text = rest;
        self.number += 1;
        Some((self.number, line))
    }
}

// The first line of a text, and what stands after its end.
fn split_line(text: &[u8]) -> (&[u8], &[u8])
    requires { 0 < length text.now }
    ensures first { lines_of text.now ≡ result.0.now ∷ lines_of result.1.now }
    ensures shorter { length result.1.now < length text.now }
{
    let end = place_of(text, b'\n');
    if end == text.len() {
        return (text, &text[end..]);
    }
    (&text[..end], &text[end + 1..])
}

// Where this byte stands first, or the text's length where it does not.
fn place_of(text: &[u8], byte: u8) -> usize
    ensures place { result ≡ position_or_len (λ other. other == byte) text.now }
    ensures within { result ≤ length text.now }
{
    first_place(text, byte).unwrap_or(text.len())
}

// Where this byte stands first.
fn first_place(text: &[u8], byte: u8) -> Option<usize>
    ensures place { result ≡ position (λ other. other == byte) text.now }
    ensures within { IfSome result (λ place. place < length text.now) }
{
    text.iter().position(|other| *other == byte)
}

/// What stands on a line: a 0x0d at its end is ignored, and `#` begins a comment.
pub fn statement(line: &[u8]) -> &[u8]
    ensures { result.now ≡ statement_of line.now }
{
    let line = without_return(line);
    &line[..place_of(line, b'#')]
}

// The line without a 0x0d at its end.
fn without_return(line: &[u8]) -> &[u8]
    ensures { result.now ≡ strip_carriage_return line.now }
{
    match line.len() {
        0 => line,
        len if line[len - 1] == b'\r' => &line[..len - 1],
        _ => line,
    }
}
