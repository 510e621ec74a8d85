//! The immediates of instructions, and the places of accesses.

ghost use Rattle.std.specs.Prelude.{◌≡◌, Some, None, MatchOption, IfOk};
ghost use Rattle.rv_line.specs.Immediate.{low_by, low_reference_in, high_by, high_reference_in, closed_in, low_in, high_in, base_in, number_place_in, reference_place_in, place_in};

use crate::number::integer_of;
use crate::operand::{Operand, cut_at};
use crate::register::{Register, register_of};
use crate::statement::{High, Low};
use crate::table::is_named;
use cfi_text::name_of;
use elf_read::Name;
use std::alloc::{AllocError, Global};

/// The place of an access or an indirect jump: an immediate and a register in parentheses.
#[derive(Drop)]
pub struct Place {
    /// What stands before the parentheses.
    pub imm: Low,
    /// The register in them.
    pub base: Register,
}

fn low_by(kind: &[u8], name: Name) -> Option<Low>
    ensures { result ≡ low_by kind.now name }
{
    if is_named(kind, "%lo") {
        return Some(Low::Lo(name));
    }
    if is_named(kind, "%pcrel_lo") {
        return Some(Low::PcrelLo(name));
    }
    None
}

// A reference of 12 bits, as far as its closing parenthesis.
#[tactic(auto, unfolding(crate::specs::Immediate::low_reference_in))]
fn low_reference_of(alloc: Global, front: &[u8]) -> Result<Option<Low>, AllocError>
    ensures { IfOk result (λ found. found ≡ low_reference_in front.now) }
{
    let Some((kind, name)) = cut_at(front, b'(') else {
        return Ok(None);
    };
    let Some(name) = name_of(alloc, name)? else {
        return Ok(None);
    };
    Ok(low_by(kind, name))
}

fn high_by(kind: &[u8], name: Name) -> Option<High>
    ensures { result ≡ high_by kind.now name }
{
    if is_named(kind, "%hi") {
        return Some(High::Hi(name));
    }
    if is_named(kind, "%pcrel_hi") {
        return Some(High::PcrelHi(name));
    }
    None
}

// A reference of 20 bits, as far as its closing parenthesis.
#[tactic(auto, unfolding(crate::specs::Immediate::high_reference_in))]
fn high_reference_of(alloc: Global, front: &[u8]) -> Result<Option<High>, AllocError>
    ensures { IfOk result (λ found. found ≡ high_reference_in front.now) }
{
    let Some((kind, name)) = cut_at(front, b'(') else {
        return Ok(None);
    };
    let Some(name) = name_of(alloc, name)? else {
        return Ok(None);
    };
    Ok(high_by(kind, name))
}

// What stands before a closing parenthesis that ends the word.
#[tactic(auto, unfolding(crate::specs::Immediate::closed_in))]
fn closed_of(word: &[u8]) -> Option<&[u8]>
    ensures { MatchOption result (closed_in word.now ≡ None)
        (λ front. closed_in word.now ≡ Some front.now) }
{
    let Some((front, back)) = cut_at(word, b')') else {
        return None;
    };
    match back {
        [] => Some(front),
        _ => None,
    }
}

impl Operand for Low {
    ghost read = { low_in };

    #[tactic(auto, unfolding(crate::specs::Immediate::low_in))]
    fn of_word(alloc: Global, word: &[u8]) -> Result<Option<Low>, AllocError> {
        if let Some(number) = integer_of(word) {
            return Ok(Some(Low::Number(number)));
        }
        match closed_of(word) {
            Some(front) => low_reference_of(alloc, front),
            None => Ok(None),
        }
    }
}

impl Operand for High {
    ghost read = { high_in };

    #[tactic(auto, unfolding(crate::specs::Immediate::high_in))]
    fn of_word(alloc: Global, word: &[u8]) -> Result<Option<High>, AllocError> {
        if let Some(number) = integer_of(word) {
            return Ok(Some(High::Number(number)));
        }
        match closed_of(word) {
            Some(front) => high_reference_of(alloc, front),
            None => Ok(None),
        }
    }
}

// The register between parentheses.
#[tactic(auto, unfolding(crate::specs::Immediate::base_in))]
fn base_of(word: &[u8]) -> Option<Register>
    ensures { result ≡ base_in word.now }
{
    let Some(inner) = closed_of(word) else {
        return None;
    };
    let Some((front, register)) = cut_at(inner, b'(') else {
        return None;
    };
    match front {
        [] => register_of(register),
        _ => None,
    }
}

#[tactic(auto, unfolding(crate::specs::Immediate::number_place_in))]
fn number_place_of(front: &[u8]) -> Option<Place>
    ensures { result ≡ number_place_in front.now }
{
    let Some((number, base)) = cut_at(front, b'(') else {
        return None;
    };
    let Some(number) = integer_of(number) else {
        return None;
    };
    let Some(base) = register_of(base) else {
        return None;
    };
    Some(Place {
        imm: Low::Number(number),
        base,
    })
}

#[tactic(auto, unfolding(crate::specs::Immediate::reference_place_in))]
fn reference_place_of(alloc: Global, front: &[u8], back: &[u8]) -> Result<Option<Place>, AllocError>
    ensures { IfOk result (λ found. found ≡ reference_place_in front.now back.now) }
{
    let Some(imm) = low_reference_of(alloc, front)? else {
        return Ok(None);
    };
    match base_of(back) {
        Some(base) => Ok(Some(Place { imm, base })),
        None => Ok(None),
    }
}

impl Operand for Place {
    ghost read = { place_in };

    #[tactic(auto, unfolding(crate::specs::Immediate::place_in))]
    fn of_word(alloc: Global, word: &[u8]) -> Result<Option<Place>, AllocError> {
        let Some((front, back)) = cut_at(word, b')') else {
            return Ok(None);
        };
        match back {
            [] => Ok(number_place_of(front)),
            _ => reference_place_of(alloc, front, back),
        }
    }
}
