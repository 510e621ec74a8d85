//! Where symbols and relocations go.

ghost use Rattle.std.specs.Prelude.{◌≡◌, map, IfOk};
ghost use Rattle.cfi_instr.specs.Target.{named_symbol};
ghost use Rattle.cfi_instr.specs.Moves.{moved_value, moved_symbol, addend_to, addend_in, addend_by, is_of_long, kind_in, offset_in};
ghost use Rattle.cfi_instr.specs.inner.Arrangement.{moved_reloc_by};

use crate::arrangement::Arrangement;
use crate::sizes::{is_long, moved};
use crate::source::is_of_text;
use crate::target::{named_symbol, offset_from};
use crate::units::distance;
use elf_read::relocation::{BRANCH, JAL, LO12_I, LO12_S, PCREL_LO12_I, PCREL_LO12_S, is_of_pair};
use elf_read::{Name, Place, Reloc, Symbol};
use std::alloc::{AllocError, Global};

// The kind of a relocation of text in the output.
fn kind_in(long: bool, kind: u32) -> u32
    ensures { result ≡ kind_in long kind }
{
    if long || is_of_pair(kind) {
        JAL
    } else if kind == LO12_S {
        LO12_I
    } else if kind == PCREL_LO12_S {
        PCREL_LO12_I
    } else {
        kind
    }
}

impl<'a> Arrangement<'a> {
    fn moved_value(&self, place: Place, value: u32) -> u32
        ensures { result ≡ moved_value self.now.source self.now.offsets place value }
    {
        match place {
            Place::Text => moved(self.source, self.offsets, value as usize),
            Place::Undefined | Place::Absolute | Place::Data => value,
        }
    }

    fn moved_symbol(&self, alloc: Global, symbol: &Symbol) -> Result<Symbol, AllocError>
        ensures { IfOk result (λ found.
            found ≡ moved_symbol self.now.source self.now.offsets symbol.now) }
    {
        let name = String::from_str(alloc, symbol.name.as_str())?;
        Ok(Symbol {
            name: Name::from_string(name),
            binding: symbol.binding,
            place: symbol.place,
            value: self.moved_value(symbol.place, symbol.value),
        })
    }

    /// The symbols of the module, those of its text moved.
    pub fn moved_symbols(&self, alloc: Global) -> Result<Vec<Symbol>, AllocError>
        ensures { IfOk result (λ found. found.items
            ≡ map (moved_symbol self.now.source self.now.offsets) self.now.symbols) }
    {
        let mut found = Vec::with_capacity(alloc, self.symbols.len())?;
        for symbol in self.symbols {
            found.push(self.moved_symbol(alloc, symbol)?)?;
        }
        Ok(found)
    }

    // The mapped target less the mapped symbol of text.
    fn addend_to(&self, value: u32, target: Option<usize>, addend: i32) -> i32
        ensures { result ≡ addend_to self.now.source self.now.offsets value target addend }
    {
        match target {
            Some(target) => distance(
                moved(self.source, self.offsets, value as usize),
                moved(self.source, self.offsets, target),
            ),
            None => addend,
        }
    }

    fn addend_in(&self, place: Place, value: u32, addend: i32) -> i32
        ensures { result ≡ addend_in self.now.source self.now.offsets place value addend }
    {
        match place {
            Place::Text => self.addend_to(value, offset_from(value, addend), addend),
            Place::Undefined | Place::Absolute | Place::Data => addend,
        }
    }

    // The addend of a relocation in the output.
    fn addend_of(&self, reloc: &Reloc) -> i32
        ensures { result ≡ addend_by self.now.source self.now.offsets
            (named_symbol self.now.symbols reloc.now) reloc.now.addend }
    {
        match named_symbol(self.symbols, reloc) {
            Some(symbol) => self.addend_in(symbol.place, symbol.value, reloc.addend),
            None => reloc.addend,
        }
    }

    // Whether it is a relocation of a long branch.
    fn is_of_long(&self, reloc: &Reloc) -> bool
        ensures { result ≡ is_of_long self.now.long reloc.now }
    {
        reloc.kind == BRANCH && is_long(self.long, (reloc.offset / 4) as usize)
    }

    // Where a relocation of text sits in the output.
    fn offset_in(&self, long: bool, offset: u32) -> u32
        ensures { result ≡ offset_in self.now.source self.now.offsets long offset }
    {
        moved(self.source, self.offsets, offset as usize) + if long { 4 } else { 0 }
    }

    fn moved_reloc(&self, reloc: &Reloc) -> Reloc
        ensures { result ≡ moved_reloc_by self.now reloc.now }
    {
        let addend = self.addend_of(reloc);
        if !is_of_text(reloc.area) {
            return Reloc { addend, ..*reloc };
        }
        let long = self.is_of_long(reloc);
        Reloc {
            area: reloc.area,
            offset: self.offset_in(long, reloc.offset),
            kind: kind_in(long, reloc.kind),
            symbol: reloc.symbol,
            addend,
        }
    }

    /// The relocations of the module, moved.
    pub fn moved_relocs(&self, alloc: Global, relocs: &[Reloc]) -> Result<Vec<Reloc>, AllocError>
        ensures { IfOk result (λ found. found.items ≡ map (moved_reloc_by self.now) relocs.now) }
    {
        let mut found = Vec::with_capacity(alloc, relocs.len())?;
        for reloc in relocs {
            found.push(self.moved_reloc(reloc))?;
        }
        Ok(found)
    }
}
