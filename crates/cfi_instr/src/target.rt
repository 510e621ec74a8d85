//! Where direct jumps and relocations lead.

ghost use Rattle.std.specs.Prelude.{◌≡◌, ◌*◌, ◌<◌, ◌^◌};
ghost use Rattle.std.specs.Option.{option_copied};
ghost use Rattle.cfi_instr.specs.Target.{offset_from, aim_by, named_symbol, aim_at_name, aim_at_symbol, aim_of, aim_of_jump, aim_of_pair};

use crate::insns::is_zero;
use crate::source::Source;
use elf_read::{Place, Reloc, Symbol};

/// Where a jump, a branch or a relocation leads.
#[derive(Clone, Copy, Debug, PartialEq, Eq)]
pub enum Aim {
    /// To this offset, in bytes from the start of the text.
    Offset(usize),
    /// To a symbol of another object.
    Name,
    /// Nowhere that a jump may lead.
    Astray,
}

/// The offset that lies so far from another; none before the start.
pub fn offset_from(at: u32, off: i32) -> Option<usize>
    ensures { result ≡ offset_from at off }
{
    let offset = i64::from(at) + i64::from(off);
    if offset < 0 {
        None
    } else {
        Some(offset as usize)
    }
}

fn aim_by(offset: Option<usize>) -> Aim
    ensures { result ≡ aim_by offset }
{
    match offset {
        Some(offset) => Aim::Offset(offset),
        None => Aim::Astray,
    }
}

// A symbol of another object is a name, which an addend leads away from.
fn aim_at_name(addend: i32) -> Aim
    ensures { result ≡ aim_at_name addend }
{
    if is_zero(addend) {
        Aim::Name
    } else {
        Aim::Astray
    }
}

// Where a relocation leads that names a symbol at such a place.
fn aim_at_symbol(place: Place, value: u32, addend: i32) -> Aim
    ensures { result ≡ aim_at_symbol place value addend }
{
    match place {
        Place::Text => aim_by(offset_from(value, addend)),
        Place::Undefined => aim_at_name(addend),
        Place::Absolute | Place::Data => Aim::Astray,
    }
}

/// The symbol that a relocation names.
pub fn named_symbol<'a>(symbols: &'a [Symbol], reloc: &Reloc) -> Option<&'a Symbol>
    ensures { option_copied result ≡ named_symbol symbols.now reloc.now }
{
    match reloc.symbol {
        Some(k) => symbols.get(k as usize),
        None => None,
    }
}

/// Where a relocation leads.
pub fn aim_of(symbols: &[Symbol], reloc: &Reloc) -> Aim
    ensures { result ≡ aim_of symbols.now reloc.now }
{
    match named_symbol(symbols, reloc) {
        Some(symbol) => aim_at_symbol(symbol.place, symbol.value, reloc.addend),
        None => Aim::Astray,
    }
}

impl Source {
    /// Where the jump or branch at the word leads, whose displacement is `off`.
    pub fn aim_of_jump(&self, symbols: &[Symbol], w: usize, off: i32) -> Aim
        requires { 4 * w < 2 ^ 32 }
        ensures { result ≡ aim_of_jump self.now symbols.now w off }
    {
        match self.reloc_on(w) {
            Some(reloc) => aim_of(symbols, &reloc),
            None => aim_by(offset_from(4 * w as u32, off)),
        }
    }

    /// Where the pair at the word leads.
    pub fn aim_of_pair(&self, symbols: &[Symbol], w: usize) -> Aim
        ensures { result ≡ aim_of_pair self.now symbols.now w }
    {
        match self.call_on(w) {
            Some(reloc) => aim_of(symbols, &reloc),
            None => Aim::Astray,
        }
    }
}
