//! A table that has no name yet.

ghost use Rattle.std.specs.Prelude.{◌≡◌, ◌≤◌, ◌++◌, All, IfOk, OnOk, map, ℕ, ◌<◌, ◌^◌, slice_index};
ghost use Rattle.cfi_word.specs.Ids.{IsField};
ghost use Rattle.cfi_word.specs.declared.limits.TheConstants.{MIN_VERSIONS, MAX_VERSIONS, MAX_EPOCH};
ghost use Rattle.cfi_model.specs.Closed.{IsClosed};
ghost use Rattle.cfi_tables.specs.Key.{key_by};
ghost use Rattle.cfi_tables.specs.inner.Opening.{opened_words};
ghost use Rattle.cfi_tables.specs.inner.Stamps.{word_by};

use crate::rule::Law;
use crate::stamp::Stamp;
use crate::view::{Told, View};
use atomic_table::{Seat, Table};
use cfi_word::limits::GUESTS;
use cfi_word::{Image, Layout};
use std::alloc::{AllocError, Global};
use std::marker::Model;
use std::snapshot::Snapshot;

/// The words, under their rule.
pub type Words = Table<(), View, Told, Law, Global>;

/// A seat at the words.
pub type Place = Seat<(), View>;

/// A table as it was opened, with the seat of its keeper. It has no name yet.
#[derive(Drop)]
pub struct Blank {
    pub(crate) words: Words,
    pub(crate) seat: Place,
    pub(crate) layout: Layout,
    pub(crate) versions: u32,
    pub(crate) first: u32,
}

// Clauses see which table it is, and what fixes it.
impl Model for Blank {
    ghost use Rattle.cfi_tables.specs.Key.{Named};
    ghost use Rattle.cfi_tables.specs.inner.Opening.{named_by, IsBlank};

    ghost Value = { Named };

    ghost view = { named_by };

    ghost invariant = { IsBlank };
}

// The words of the opening, in their order.
fn opened_words(
    alloc: Global,
    layout: &Layout,
    stamp: &Stamp,
    image: &Image,
) -> Result<Vec<u64>, AllocError>
    requires { IsClosed layout.now image.now }
    ensures words { IfOk result (λ words. words.items ≡ opened_words stamp.now image.now) }
    ensures small { IfOk result (λ words. (index : ℕ) →
        slice_index image.now.code index < 2 ^ 32) }
{
    let mut words = Vec::new(alloc);
    words.push(stamp.word(0))?;
    words.extend_from_slice(&[0u64; GUESTS as usize])?;
    push_code(&mut words, image.code.as_slice())?;
    push_words(&mut words, stamp, image.tary.as_slice())?;
    push_words(&mut words, stamp, image.bary.as_slice())?;
    Ok(words)
}

// The code words, each of 32 bits.
fn push_code(words: &mut Vec<u64>, code: &[u32]) -> Result<(), AllocError>
    ensures words { OnOk result (words.new.items ≡ words.old.items ++ code.now) }
    ensures small { OnOk result ((index : ℕ) → slice_index code.now index < 2 ^ 32) }
{
    for instruction in code {
        words.push(u64::from(*instruction))?;
    }
    Ok(())
}

// The table words of these classes.
fn push_words(words: &mut Vec<u64>, stamp: &Stamp, classes: &[u32]) -> Result<(), AllocError>
    requires { All IsField classes.now }
    ensures { OnOk result (
        words.new.items ≡ words.old.items ++ map (word_by stamp.now) classes.now) }
{
    for class in classes {
        words.push(stamp.word(*class))?;
    }
    Ok(())
}

impl Blank {
    /// The table of the opening: no guest is registered, and all QUIET words are 0.
    ///
    /// `versions` is from `MIN_VERSIONS` to `MAX_VERSIONS`, `first` at most `MAX_EPOCH`, and the image is closed.
    pub fn new(
        alloc: Global,
        layout: Layout,
        versions: u32,
        first: u32,
        image: &Image,
    ) -> Result<Blank, AllocError>
        requires least { MIN_VERSIONS ≤ versions }
        requires most { versions ≤ MAX_VERSIONS }
        requires first { first ≤ MAX_EPOCH }
        requires closed { IsClosed layout image.now }
        ensures { IfOk result (λ blank. blank.key ≡ key_by layout versions first image.now) }
    {
        let stamp = Stamp::new(first, 0, versions);
        let words = opened_words(alloc, &layout, &stamp, image)?;
        let told = Told {
            layout,
            versions,
            first,
            image: Snapshot::of(image),
        };
        let (words, seat) = Table::of_words(alloc, words.as_slice(), &told)?;
        Ok(Blank {
            words,
            seat,
            layout,
            versions,
            first,
        })
    }
}
