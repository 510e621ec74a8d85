ghost use Rattle.std.specs.Prelude.{◌≡◌};
ghost use Rattle.cfi_report.specs.inner.Form.{who_in, what_two, what_three, what_four, what_five, loaded_three, loaded_four, loaded_five, retired_three, retired_five, called_three, called_four, called_five, journal_form};

use crate::line::Line;
use cfi_plan::{Entry, JournalLine, Who};
use cfi_text::read_small_dec;

/// The line of the journal, of which this came.
#[tactic(auto, unfolding(crate::specs::inner::Form::journal_form))]
pub fn journal(keyword: &[u8], who: &[u8], what: Option<JournalLine>) -> Option<Line>
    ensures { result ≡ journal_form keyword.now who.now what }
{
    if keyword != b"journal".as_slice() {
        return None;
    }
    let who = who_of(who)?;
    let what = what?;
    Some(Line::Journal(Entry { who, what }))
}

#[tactic(auto, unfolding(crate::specs::inner::Form::who_in))]
fn who_of(word: &[u8]) -> Option<Who>
    ensures { result ≡ who_in word.now }
{
    if word == b"script".as_slice() {
        return Some(Who::Script);
    }
    read_small_dec(word).map(Who::Guest)
}

/// What came of a call, in two words.
#[tactic(auto, unfolding(crate::specs::inner::Form::what_two))]
pub fn what_two(verb: &[u8], end: &[u8]) -> Option<JournalLine>
    ensures { result ≡ what_two verb.now end.now }
{
    if verb == b"refresh".as_slice() && end == b"epochs".as_slice() {
        return Some(JournalLine::RefreshEpochs);
    }
    None
}

/// What came of a call, in three words.
#[tactic(auto, unfolding(crate::specs::inner::Form::what_three))]
pub fn what_three(verb: &[u8], word: &[u8], end: &[u8]) -> Option<JournalLine>
    ensures { result ≡ what_three verb.now word.now end.now }
{
    if verb == b"refresh".as_slice() && word == b"ok".as_slice() {
        return read_small_dec(end).map(|epoch| JournalLine::RefreshOk { epoch });
    }
    let module = read_small_dec(word)?;
    called_three(verb, end, module)
}

#[tactic(auto, unfolding(crate::specs::inner::Form::called_three))]
fn called_three(verb: &[u8], end: &[u8], module: u32) -> Option<JournalLine>
    ensures { result ≡ called_three verb.now end.now «module» }
{
    if verb == b"load".as_slice() {
        return loaded_three(end, module);
    }
    if verb == b"retire".as_slice() {
        return retired_three(end, module);
    }
    None
}

#[tactic(auto, unfolding(crate::specs::inner::Form::loaded_three))]
fn loaded_three(end: &[u8], module: u32) -> Option<JournalLine>
    ensures { result ≡ loaded_three end.now «module» }
{
    if end == b"full".as_slice() {
        return Some(JournalLine::LoadFull { module });
    }
    if end == b"epochs".as_slice() {
        return Some(JournalLine::LoadEpochs { module });
    }
    if end == b"retired".as_slice() {
        return Some(JournalLine::LoadRetired { module });
    }
    None
}

#[tactic(auto, unfolding(crate::specs::inner::Form::retired_three))]
fn retired_three(end: &[u8], module: u32) -> Option<JournalLine>
    ensures { result ≡ retired_three end.now «module» }
{
    if end == b"notlive".as_slice() {
        return Some(JournalLine::RetireNotLive { module });
    }
    if end == b"epochs".as_slice() {
        return Some(JournalLine::RetireEpochs { module });
    }
    None
}

/// What came of a call, in four words.
#[tactic(auto, unfolding(crate::specs::inner::Form::what_four))]
pub fn what_four(verb: &[u8], word: &[u8], other: &[u8], end: &[u8]) -> Option<JournalLine>
    ensures { result ≡ what_four verb.now word.now other.now end.now }
{
    if verb == b"refresh".as_slice() && word == b"versions".as_slice() {
        let guest = read_small_dec(other)?;
        let quiet = read_small_dec(end)?;
        return Some(JournalLine::RefreshVersions { guest, quiet });
    }
    let module = read_small_dec(word)?;
    let last = read_small_dec(end)?;
    called_four(verb, other, module, last)
}

#[tactic(auto, unfolding(crate::specs::inner::Form::called_four))]
fn called_four(verb: &[u8], word: &[u8], module: u32, last: u32) -> Option<JournalLine>
    ensures { result ≡ called_four verb.now word.now «module» last }
{
    if verb == b"load".as_slice() {
        return loaded_four(word, module, last);
    }
    if verb == b"retire".as_slice() && word == b"inuse".as_slice() {
        return Some(JournalLine::RetireInUse { module, user: last });
    }
    None
}

#[tactic(auto, unfolding(crate::specs::inner::Form::loaded_four))]
fn loaded_four(word: &[u8], module: u32, last: u32) -> Option<JournalLine>
    ensures { result ≡ loaded_four word.now «module» last }
{
    if word == b"again".as_slice() {
        return Some(JournalLine::LoadAgain {
            module,
            policy: last,
        });
    }
    if word == b"place".as_slice() {
        return Some(JournalLine::LoadPlace {
            module,
            number: last,
        });
    }
    None
}

/// What came of a call, in five words.
#[tactic(auto, unfolding(crate::specs::inner::Form::what_five))]
pub fn what_five(
    verb: &[u8],
    word: &[u8],
    other: &[u8],
    first: &[u8],
    last: &[u8],
) -> Option<JournalLine>
    ensures { result ≡ what_five verb.now word.now other.now first.now last.now }
{
    let module = read_small_dec(word)?;
    let first = read_small_dec(first)?;
    let last = read_small_dec(last)?;
    called_five(verb, other, module, first, last)
}

#[tactic(auto, unfolding(crate::specs::inner::Form::called_five))]
fn called_five(verb: &[u8], word: &[u8], module: u32, first: u32, last: u32) -> Option<JournalLine>
    ensures { result ≡ called_five verb.now word.now «module» first last }
{
    if verb == b"load".as_slice() {
        return loaded_five(word, module, first, last);
    }
    if verb == b"retire".as_slice() {
        return retired_five(word, module, first, last);
    }
    None
}

#[tactic(auto, unfolding(crate::specs::inner::Form::loaded_five))]
fn loaded_five(word: &[u8], module: u32, first: u32, last: u32) -> Option<JournalLine>
    ensures { result ≡ loaded_five word.now «module» first last }
{
    if word == b"ok".as_slice() {
        return Some(JournalLine::LoadOk {
            module,
            epoch: first,
            policy: last,
        });
    }
    if word == b"verify".as_slice() {
        return Some(JournalLine::LoadVerify {
            module,
            number: first,
            place: last,
        });
    }
    if word == b"versions".as_slice() {
        return Some(JournalLine::LoadVersions {
            module,
            guest: first,
            quiet: last,
        });
    }
    None
}

#[tactic(auto, unfolding(crate::specs::inner::Form::retired_five))]
fn retired_five(word: &[u8], module: u32, first: u32, last: u32) -> Option<JournalLine>
    ensures { result ≡ retired_five word.now «module» first last }
{
    if word == b"ok".as_slice() {
        return Some(JournalLine::RetireOk {
            module,
            epoch: first,
            policy: last,
        });
    }
    if word == b"versions".as_slice() {
        return Some(JournalLine::RetireVersions {
            module,
            guest: first,
            quiet: last,
        });
    }
    None
}
