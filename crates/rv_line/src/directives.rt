//! The directives.

ghost use Rattle.std.specs.Prelude.{◌≡◌, IfOk, option_map, option_and_then};
ghost use Rattle.rv_line.specs.Statement.{integers_in, names_in, has_count, node_words, func_by, func_words, only_integer, switch_of, kind_by, kind_words, directive_in};
ghost use Rattle.cfi_text.specs.Words.{words_in};

use crate::insn::alone;
use crate::keyword::{Directive, node_kind_called};
use crate::number::integer_of;
use crate::operand::{one_of, word_of};
use crate::statement::{NodeKind, Statement};
use crate::table::is_named;
use cfi_text::{name_of, next_word};
use cfi_values::Items;
use elf_read::Name;
use std::alloc::{AllocError, Global};

// The numbers that the words are. `None` where one is none.
fn integers_of(alloc: Global, text: &[u8]) -> Result<Option<Vec<i64>>, AllocError>
    ensures { IfOk result
        (λ found. option_map (λ v. v.items) found ≡ integers_in (words_in text.now)) }
{
    let mut numbers = Vec::new(alloc);
    let mut rest = text;
    while let Some((word, after)) = next_word(rest) {
        let Some(number) = integer_of(word) else {
            return Ok(None);
        };
        numbers.push(number)?;
        rest = after;
    }
    Ok(Some(numbers))
}

// The names that the words are. `None` where one is none.
fn names_of(alloc: Global, text: &[u8]) -> Result<Option<Vec<Name>>, AllocError>
    ensures { IfOk result
        (λ found. option_map (λ v. v.items) found ≡ names_in (words_in text.now)) }
{
    let mut names = Vec::new(alloc);
    let mut rest = text;
    while let Some((word, after)) = next_word(rest) {
        let Some(name) = name_of(alloc, word)? else {
            return Ok(None);
        };
        names.push(name)?;
        rest = after;
    }
    Ok(Some(names))
}

// Whether a node of this kind has so many fields.
fn has_count(kind: NodeKind, count: usize) -> bool
    ensures { result ≡ has_count kind count }
{
    match kind {
        NodeKind::Void => count == 0,
        NodeKind::Int | NodeKind::Array => count == 2,
        NodeKind::Real | NodeKind::Ptr => count == 1,
        NodeKind::Struct | NodeKind::Union => true,
        NodeKind::Func | NodeKind::VarFunc => 1 <= count,
    }
}

// `.node KIND FIELDS`.
fn node_form(alloc: Global, rest: &[u8]) -> Result<Option<Statement>, AllocError>
    ensures { IfOk result (λ found. found ≡ node_words (words_in rest.now)) }
{
    let Some((word, rest)) = next_word(rest) else {
        return Ok(None);
    };
    let Some(kind) = node_kind_called(word) else {
        return Ok(None);
    };
    let Some(fields) = integers_of(alloc, rest)? else {
        return Ok(None);
    };
    if !has_count(kind, fields.len()) {
        return Ok(None);
    }
    let fields = Items::from_vec(fields);
    Ok(Some(Statement::Node { kind, fields }))
}

// A function of a name and a node.
fn func_by(
    alloc: Global,
    name: &[u8],
    node: &[u8],
    taken: bool,
) -> Result<Option<Statement>, AllocError>
    ensures { IfOk result (λ found. found ≡ func_by name.now node.now taken) }
{
    let Some(name) = name_of(alloc, name)? else {
        return Ok(None);
    };
    match integer_of(node) {
        Some(node) => Ok(Some(Statement::Func { name, node, taken })),
        None => Ok(None),
    }
}

// `.func NAME NODE` and `.func NAME NODE taken`.
fn func_form(alloc: Global, rest: &[u8]) -> Result<Option<Statement>, AllocError>
    ensures { IfOk result (λ found. found ≡ func_words (words_in rest.now)) }
{
    let Some((name, rest)) = next_word(rest) else {
        return Ok(None);
    };
    let Some((node, rest)) = next_word(rest) else {
        return Ok(None);
    };
    let Some((taken, rest)) = next_word(rest) else {
        return func_by(alloc, name, node, false);
    };
    if next_word(rest).is_some() || !is_named(taken, "taken") {
        return Ok(None);
    }
    func_by(alloc, name, node, true)
}

// The number that is the only word.
fn only_integer(text: &[u8]) -> Option<i64>
    ensures { result ≡ only_integer (words_in text.now) }
{
    match word_of(text) {
        Some(word) => integer_of(word),
        None => None,
    }
}

// A switch over names, of which there is one at least.
fn switch_of(names: Vec<Name>) -> Option<Statement>
    ensures { result ≡ switch_of names.items }
{
    if names.is_empty() {
        None
    } else {
        Some(Statement::KindSwitch(Items::from_vec(names)))
    }
}

fn switch_form(alloc: Global, rest: &[u8]) -> Result<Option<Statement>, AllocError>
    ensures { IfOk result
        (λ found. found ≡ option_and_then switch_of (names_in (words_in rest.now))) }
{
    match names_of(alloc, rest)? {
        Some(names) => Ok(switch_of(names)),
        None => Ok(None),
    }
}

#[tactic(auto, unfolding(crate::specs::Statement::kind_by))]
fn kind_by(alloc: Global, kind: &[u8], rest: &[u8]) -> Result<Option<Statement>, AllocError>
    ensures { IfOk result (λ found. found ≡ kind_by kind.now (words_in rest.now)) }
{
    if is_named(kind, "call") {
        return Ok(only_integer(rest).map(Statement::KindCall));
    }
    if is_named(kind, "tail") {
        return Ok(only_integer(rest).map(Statement::KindTail));
    }
    if is_named(kind, "return") {
        return Ok(next_word(rest).is_none().then_some(Statement::KindReturn));
    }
    if is_named(kind, "switch") {
        return switch_form(alloc, rest);
    }
    Ok(None)
}

// `.kind call NODE`, `.kind tail NODE`, `.kind return` and `.kind switch NAME..`.
fn kind_form(alloc: Global, rest: &[u8]) -> Result<Option<Statement>, AllocError>
    ensures { IfOk result (λ found. found ≡ kind_words (words_in rest.now)) }
{
    match next_word(rest) {
        Some((kind, rest)) => kind_by(alloc, kind, rest),
        None => Ok(None),
    }
}

/// The statement of a directive and what comes after it.
pub fn directive_of(
    alloc: Global,
    directive: Directive,
    rest: &[u8],
) -> Result<Option<Statement>, AllocError>
    ensures { IfOk result (λ found. found ≡ directive_in directive rest.now) }
{
    match directive {
        Directive::Text => Ok(alone(Statement::Text, rest)),
        Directive::Data => Ok(alone(Statement::Data, rest)),
        Directive::Globl => Ok(one_of(alloc, rest)?.map(Statement::Globl)),
        Directive::Word => Ok(one_of(alloc, rest)?.map(Statement::Word)),
        Directive::Zero => Ok(one_of(alloc, rest)?.map(Statement::Zero)),
        Directive::Node => node_form(alloc, rest),
        Directive::Func => func_form(alloc, rest),
        Directive::EndFunc => Ok(alone(Statement::EndFunc, rest)),
        Directive::Kind => kind_form(alloc, rest),
    }
}
