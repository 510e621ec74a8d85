//! What is read of a module's text.

ghost use Rattle.std.specs.Prelude.{◌≡◌, ◌/◌, ◌<◌, ℕ, length, None, IfOk, IfSome, slice_index_or};
ghost use Rattle.rv_insn.specs.Insn.{InRange};
ghost use Rattle.rv_insn.specs.InsnOf.{insn_of};
ghost use Rattle.cfi_instr.specs.Words.{is_of_text, sits_on, firsts_on, insns_in, AreInsnsInRange, read_words, insn_at, reloc_on, call_on, count_of};
ghost use Rattle.cfi_instr.specs.inner.Words.{noted};

use elf_read::relocation::is_of_pair;
use elf_read::{Area, Object, Reloc};
use rv_insn::{Insn, decode};
use rv_reloc::word_at;
use std::alloc::{AllocError, Global};
use std::marker::Model;

/// The text of a module as it is read: the instruction of each word, and the relocations that sit on it.
#[derive(Debug, Drop)]
pub struct Source {
    insns: Vec<Option<Insn>>,
    relocs: Vec<Option<Reloc>>,
    calls: Vec<Option<Reloc>>,
}

impl Model for Source {
    ghost use Rattle.cfi_instr.specs.Words.{Words, words_by};

    ghost Value = { Words };

    ghost view = { λ s. words_by s.insns.items s.relocs.items s.calls.items };
}

impl Source {
    /// How many words there are.
    pub fn count(&self) -> usize
        ensures { result ≡ count_of self.now }
    {
        self.insns.len()
    }

    /// The instruction of the word, none where it is none.
    pub fn insn_at(&self, w: usize) -> Option<Insn>
        ensures { result ≡ insn_at self.now w }
    {
        match self.insns.get(w) {
            Some(insn) => *insn,
            None => None,
        }
    }

    /// The first relocation on the word.
    pub fn reloc_on(&self, w: usize) -> Option<Reloc>
        ensures { result ≡ reloc_on self.now w }
    {
        match self.relocs.get(w) {
            Some(reloc) => *reloc,
            None => None,
        }
    }

    /// The first relocation on the word that changes a pair.
    pub fn call_on(&self, w: usize) -> Option<Reloc>
        ensures { result ≡ call_on self.now w }
    {
        match self.calls.get(w) {
            Some(reloc) => *reloc,
            None => None,
        }
    }
}

/// Whether it is the text.
pub fn is_of_text(area: Area) -> bool
    ensures { result ≡ is_of_text area }
{
    matches!(area, Area::Text)
}

// The instruction that a word is.
fn insn_of(word: u32) -> Option<Insn>
    ensures same { result ≡ insn_of word }
    ensures range { IfSome result InRange }
{
    match decode(word) {
        Some(insn) => Some(insn),
        None => None,
    }
}

// The instructions of a text's words.
fn insns_in(alloc: Global, text: &[u8]) -> Result<Vec<Option<Insn>>, AllocError>
    ensures same { IfOk result (λ insns. insns.items ≡ insns_in text.now) }
    ensures len { IfOk result (λ insns. length insns.items ≡ length text.now / 4) }
    ensures range { IfOk result (λ insns. AreInsnsInRange insns.items) }
{
    let count = text.len() / 4;
    let mut insns = Vec::with_capacity(alloc, count)?;
    for w in 0..count {
        insns.push(insn_of(word_at(text, 4 * w)))?;
    }
    Ok(insns)
}

// Notes a relocation at its word, where none is noted yet.
fn note(table: &mut Vec<Option<Reloc>>, calling: bool, reloc: Reloc)
    ensures len { length table.new.items ≡ length table.old.items }
    ensures noted { (w : ℕ) → w < length table.old.items → slice_index_or table.new.items w None
        ≡ noted (sits_on calling w reloc) reloc (slice_index_or table.old.items w None) }
{
    let w = (reloc.offset / 4) as usize;
    if !is_of_text(reloc.area) || reloc.offset % 4 != 0 || w >= table.len() {
        return;
    }
    if (!calling || is_of_pair(reloc.kind)) && table[w].is_none() {
        table[w] = Some(reloc);
    }
}

// The first relocation on each of so many words, with `calling` the first that changes a pair.
fn firsts_on(
    alloc: Global,
    calling: bool,
    relocs: &[Reloc],
    count: usize,
) -> Result<Vec<Option<Reloc>>, AllocError>
    ensures { IfOk result (λ table. table.items ≡ firsts_on calling relocs.now count) }
{
    let mut table = vec![in alloc; None; count]?;
    for reloc in relocs {
        note(&mut table, calling, *reloc);
    }
    Ok(table)
}

/// What is read of an object's text.
pub fn read_source(alloc: Global, object: &Object) -> Result<Source, AllocError>
    ensures same { IfOk result (λ source. source ≡ read_words object.now) }
    ensures count { IfOk result (λ source. count_of source ≡ length object.now.text / 4) }
    ensures range { IfOk result (λ source. AreInsnsInRange source.insns) }
{
    let count = object.text.len() / 4;
    let relocs = object.relocs.as_slice();
    Ok(Source {
        insns: insns_in(alloc, object.text.as_slice())?,
        relocs: firsts_on(alloc, false, relocs, count)?,
        calls: firsts_on(alloc, true, relocs, count)?,
    })
}
