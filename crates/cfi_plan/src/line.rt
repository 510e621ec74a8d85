ghost use Rattle.std.specs.Prelude.{◌≡◌, IfOk};
ghost use Rattle.cfi_plan.specs.Line.{form_of, pair_form, numbered_form, counted_form, module_form, start_in};
ghost use Rattle.cfi_text.specs.Words.{words_in};

use crate::plan::PlanModule;
use cfi_text::{file_of, name_of, next_word, read_dec};
use cfi_values::Text;
use std::alloc::{AllocError, Global};

/// A line of a plan after the first.
#[derive(Drop)]
pub enum Line {
    /// It has no word.
    Blank,
    /// The number of code words.
    Code(u64),
    /// The number of versions.
    Versions(u64),
    /// The first epoch.
    Epoch(u64),
    /// The fuel of each guest.
    Fuel(u64),
    /// A module.
    Module(PlanModule),
    /// A guest, by its entry.
    Guest(Text),
    /// Load the module of this name.
    Load(Text),
    /// Retire the module of this name.
    Retire(Text),
    /// Make this many refreshes.
    Refresh(u64),
}

/// The line that the statement says. `None` where it says none.
pub fn read_line(alloc: Global, statement: &[u8]) -> Result<Option<Line>, AllocError>
    ensures { IfOk result (λ found. found ≡ form_of (words_in statement.now)) }
{
    let Some((keyword, rest)) = next_word(statement) else {
        return Ok(Some(Line::Blank));
    };
    let Some((first, rest)) = next_word(rest) else {
        return Ok(None);
    };
    let Some((second, rest)) = next_word(rest) else {
        return pair(alloc, keyword, first);
    };
    let Some((third, rest)) = next_word(rest) else {
        return Ok(None);
    };
    if next_word(rest).is_some() || keyword != b"module".as_slice() {
        return Ok(None);
    }
    module(alloc, first, second, third)
}

#[tactic(auto, unfolding(crate::specs::Line::pair_form))]
fn pair(alloc: Global, keyword: &[u8], word: &[u8]) -> Result<Option<Line>, AllocError>
    ensures { IfOk result (λ found. found ≡ pair_form keyword.now word.now) }
{
    if keyword == b"guest".as_slice() {
        return Ok(name_of(alloc, word)?.map(Line::Guest));
    }
    if keyword == b"load".as_slice() {
        return Ok(name_of(alloc, word)?.map(Line::Load));
    }
    if keyword == b"retire".as_slice() {
        return Ok(name_of(alloc, word)?.map(Line::Retire));
    }
    Ok(numbered(keyword, word))
}

fn numbered(keyword: &[u8], word: &[u8]) -> Option<Line>
    ensures { result ≡ numbered_form keyword.now word.now }
{
    match read_dec(word) {
        Some(number) => counted(keyword, number),
        None => None,
    }
}

#[tactic(auto, unfolding(crate::specs::Line::counted_form))]
fn counted(keyword: &[u8], number: u64) -> Option<Line>
    ensures { result ≡ counted_form keyword.now number }
{
    if keyword == b"code".as_slice() {
        return Some(Line::Code(number));
    }
    if keyword == b"versions".as_slice() {
        return Some(Line::Versions(number));
    }
    if keyword == b"epoch".as_slice() {
        return Some(Line::Epoch(number));
    }
    if keyword == b"fuel".as_slice() {
        return Some(Line::Fuel(number));
    }
    if keyword == b"refresh".as_slice() && number != 0 {
        return Some(Line::Refresh(number));
    }
    None
}

#[tactic(auto, unfolding(crate::specs::Line::module_form))]
fn module(alloc: Global, name: &[u8], file: &[u8], when: &[u8]) -> Result<Option<Line>, AllocError>
    ensures { IfOk result (λ found. found ≡ module_form name.now file.now when.now) }
{
    let Some(name) = name_of(alloc, name)? else {
        return Ok(None);
    };
    let Some(file) = file_of(alloc, file)? else {
        return Ok(None);
    };
    match start_of(when) {
        Some(start) => Ok(Some(Line::Module(PlanModule { name, file, start }))),
        None => Ok(None),
    }
}

#[tactic(auto, unfolding(crate::specs::Line::start_in))]
fn start_of(word: &[u8]) -> Option<bool>
    ensures { result ≡ start_in word.now }
{
    if word == b"start".as_slice() {
        return Some(true);
    }
    if word == b"late".as_slice() {
        return Some(false);
    }
    None
}
