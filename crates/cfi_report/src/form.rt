ghost use Rattle.std.specs.Prelude.{◌≡◌, IfOk};
ghost use Rattle.cfi_report.specs.inner.Form.{spaced_words, line_form, lone_form, pair_form, three_form, force_form, guest_form, pick_form, stop_form, four_form, opened_form, seven_form, module_form};

use crate::journal::{journal, what_five, what_four, what_three, what_two};
use crate::line::Line;
use crate::words::{address, bytes, first_word};
use cfi_plan::ModuleLine;
use cfi_text::{name_of, read_small_dec};
use cfi_unit::{Log, Stop};
use std::alloc::{AllocError, Global};

/// The line that the text says, which stands there without its end. `None` where it says none.
pub fn read_form(alloc: Global, text: &[u8]) -> Result<Option<Line>, AllocError>
    ensures { IfOk result (λ found. found ≡ line_form (spaced_words text.now)) }
{
    let (keyword, rest) = first_word(text);
    let Some(rest) = rest else {
        return Ok(lone(keyword));
    };
    let (a, rest) = first_word(rest);
    let Some(rest) = rest else {
        return pair(alloc, keyword, a);
    };
    let (b, rest) = first_word(rest);
    let Some(rest) = rest else {
        return three(alloc, keyword, a, b);
    };
    let (c, rest) = first_word(rest);
    let Some(rest) = rest else {
        return Ok(four(keyword, a, b, c));
    };
    let (d, rest) = first_word(rest);
    let Some(rest) = rest else {
        return Ok(journal(keyword, a, what_three(b, c, d)));
    };
    let (e, rest) = first_word(rest);
    let Some(rest) = rest else {
        return Ok(journal(keyword, a, what_four(b, c, d, e)));
    };
    let (f, rest) = first_word(rest);
    match rest {
        Some(_) => Ok(None),
        None => seven(alloc, keyword, a, b, c, d, e, f),
    }
}

#[tactic(auto, unfolding(crate::specs::inner::Form::lone_form))]
fn lone(keyword: &[u8]) -> Option<Line>
    ensures { result ≡ lone_form keyword.now }
{
    if keyword == b"end".as_slice() {
        return Some(Line::End);
    }
    None
}

#[tactic(auto, unfolding(crate::specs::inner::Form::pair_form))]
fn pair(alloc: Global, keyword: &[u8], word: &[u8]) -> Result<Option<Line>, AllocError>
    ensures { IfOk result (λ found. found ≡ pair_form keyword.now word.now) }
{
    if keyword == b"report".as_slice() {
        let is_one = word == b"1".as_slice();
        return Ok(if is_one { Some(Line::Title) } else { None });
    }
    if keyword == b"out".as_slice() {
        return Ok(bytes(alloc, word)?.map(Line::Out));
    }
    if keyword == b"stop".as_slice() {
        let is_fuel = word == b"fuel".as_slice();
        return Ok(if is_fuel {
            Some(Line::Stop(Some(Stop::Fuel)))
        } else {
            None
        });
    }
    if keyword == b"units".as_slice() {
        return Ok(read_small_dec(word).map(Line::Units));
    }
    if keyword == b"steps".as_slice() {
        return Ok(read_small_dec(word).map(Line::Steps));
    }
    Ok(None)
}

#[tactic(auto, unfolding(crate::specs::inner::Form::three_form))]
fn three(alloc: Global, keyword: &[u8], word: &[u8], end: &[u8]) -> Result<Option<Line>, AllocError>
    ensures { IfOk result (λ found. found ≡ three_form keyword.now word.now end.now) }
{
    if keyword == b"force".as_slice() {
        return Ok(force(word, end));
    }
    if keyword == b"guest".as_slice() {
        return guest(alloc, word, end);
    }
    if keyword == b"pick".as_slice() {
        return Ok(pick(word, end));
    }
    if keyword == b"stop".as_slice() {
        return Ok(stop(word, end));
    }
    Ok(None)
}

#[tactic(auto, unfolding(crate::specs::inner::Form::force_form))]
fn force(epoch: &[u8], policy: &[u8]) -> Option<Line>
    ensures { result ≡ force_form epoch.now policy.now }
{
    let epoch = read_small_dec(epoch)?;
    let policy = read_small_dec(policy)?;
    Some(Line::Force(epoch, policy))
}

#[tactic(auto, unfolding(crate::specs::inner::Form::guest_form))]
fn guest(alloc: Global, number_word: &[u8], entry: &[u8]) -> Result<Option<Line>, AllocError>
    ensures { IfOk result (λ found. found ≡ guest_form number_word.now entry.now) }
{
    let Some(number) = read_small_dec(number_word) else {
        return Ok(None);
    };
    match name_of(alloc, entry)? {
        Some(entry) => Ok(Some(Line::Guest(number, entry))),
        None => Ok(None),
    }
}

#[tactic(auto, unfolding(crate::specs::inner::Form::pick_form))]
fn pick(policy: &[u8], count: &[u8]) -> Option<Line>
    ensures { result ≡ pick_form policy.now count.now }
{
    let policy = read_small_dec(policy)?;
    let count = read_small_dec(count)?;
    if count == 0 {
        return None;
    }
    Some(Line::Log(Log::Pick { policy, count }))
}

#[tactic(auto, unfolding(crate::specs::inner::Form::stop_form))]
fn stop(word: &[u8], end: &[u8]) -> Option<Line>
    ensures { result ≡ stop_form word.now end.now }
{
    if word == b"exit".as_slice() {
        return read_small_dec(end).map(|code| Line::Stop(Some(Stop::Exit(code))));
    }
    if word == b"halt".as_slice() {
        return address(end).map(|target| Line::Stop(Some(Stop::Halt(target))));
    }
    if word == b"align".as_slice() {
        return address(end).map(|place| Line::Stop(Some(Stop::Align(place))));
    }
    None
}

#[tactic(auto, unfolding(crate::specs::inner::Form::four_form))]
fn four(keyword: &[u8], word: &[u8], other: &[u8], end: &[u8]) -> Option<Line>
    ensures { result ≡ four_form keyword.now word.now other.now end.now }
{
    if keyword == b"open".as_slice() {
        let module = read_small_dec(word)?;
        return opened(module, other, end);
    }
    journal(keyword, word, what_two(other, end))
}

#[tactic(auto, unfolding(crate::specs::inner::Form::opened_form))]
fn opened(module: u32, word: &[u8], end: &[u8]) -> Option<Line>
    ensures { result ≡ opened_form word.now end.now «module» }
{
    if word == b"cause".as_slice() {
        return read_small_dec(end).map(|cause| Line::Log(Log::Cause { module, cause }));
    }
    let address = address(word)?;
    let policy = read_small_dec(end)?;
    Some(Line::Log(Log::Open {
        module,
        address,
        policy,
    }))
}

#[tactic(auto, unfolding(crate::specs::inner::Form::seven_form))]
fn seven(
    alloc: Global,
    keyword: &[u8],
    a: &[u8],
    b: &[u8],
    c: &[u8],
    d: &[u8],
    e: &[u8],
    f: &[u8],
) -> Result<Option<Line>, AllocError>
    ensures { IfOk result (λ found.
        found ≡ seven_form keyword.now a.now b.now c.now d.now e.now f.now) }
{
    if keyword == b"module".as_slice() {
        return module(alloc, a, b, c, d, e, f);
    }
    Ok(journal(keyword, a, what_five(b, c, d, e, f)))
}

#[tactic(auto, unfolding(crate::specs::inner::Form::module_form))]
fn module(
    alloc: Global,
    number_word: &[u8],
    name: &[u8],
    base: &[u8],
    slot: &[u8],
    data_base: &[u8],
    policy: &[u8],
) -> Result<Option<Line>, AllocError>
    ensures { IfOk result (λ found. found ≡
        module_form number_word.now name.now base.now slot.now data_base.now policy.now) }
{
    let Some(number_found) = read_small_dec(number_word) else {
        return Ok(None);
    };
    let Some(name) = name_of(alloc, name)? else {
        return Ok(None);
    };
    let Some(base) = read_small_dec(base) else {
        return Ok(None);
    };
    let Some(slot) = read_small_dec(slot) else {
        return Ok(None);
    };
    let Some(data_base) = address(data_base) else {
        return Ok(None);
    };
    let Some(policy) = read_small_dec(policy) else {
        return Ok(None);
    };
    Ok(Some(Line::Module(ModuleLine {
        number: number_found,
        name,
        base,
        slot,
        data_base,
        policy,
    })))
}
