//! Where stubs go in a module.

ghost use Rattle.std.specs.Prelude.{◌≡◌, ◌+◌, ◌*◌, ◌<◌, ◌≤◌, length};
ghost use Rattle.cfi_aux.specs.Records.{padding};
ghost use Rattle.cfi_import.specs.Start.{first_shared, start_of, stub_offset, cell_offset, stub_symbol, cell_symbol, end_after, text_end};
ghost use Rattle.cfi_import.specs.inner.Room.{HasRoom, IsSmall};

use cfi_aux::Module;
use elf_read::{Area, Binding, Reloc, Symbol};

/// Bytes of a stub: three instructions.
pub const STUB_BYTES: u32 = 12;

/// Bytes of a cell: an address.
pub const CELL_BYTES: u32 = 4;

/// Symbols of a stub: one of the stub, one of its cell.
pub const STUB_SYMBOLS: u32 = 2;

/// Where stubs go in a module.
#[derive(Clone, Copy, Debug, PartialEq, Eq)]
pub struct Start {
    /// How many stubs they are.
    pub count: u32,
    /// How many bytes of text stand before them.
    pub text: u32,
    /// How many bytes of data stand before their cells.
    pub static_data: u32,
    /// How many nodes of types stand before their type.
    pub types: u32,
    /// How many symbols stand before theirs.
    pub symbols: u32,
}

// The number of the first symbol that is not local.
fn first_shared(symbols: &[Symbol]) -> usize
    ensures is { result ≡ first_shared symbols.now }
    ensures within { result ≤ length symbols.now }
{
    for (k, symbol) in symbols.iter().enumerate() {
        if symbol.binding != Binding::Local {
            return k;
        }
    }
    symbols.len()
}

/// How many bytes are missing to whole words.
pub fn padding(length: usize) -> usize
    ensures { result ≡ padding length }
{
    (4 - length % 4) % 4
}

/// Where this number of stubs goes in a module.
pub fn start_of(source: &Module, count: u32) -> Start
    requires { IsSmall source.now }
    ensures { result ≡ start_of source.now count }
{
    let object = &source.object;
    let static_data = object.static_data.len();
    Start {
        count,
        text: object.text.len() as u32,
        static_data: (static_data + padding(static_data)) as u32,
        types: source.types.nodes().len() as u32,
        symbols: first_shared(object.symbols.as_slice()) as u32,
    }
}

impl Start {
    /// The offset in the text of the stub of this place.
    pub fn stub_offset(self, place: u32) -> u32
        requires room { HasRoom self }
        requires there { place < self.count }
        ensures { result ≡ stub_offset self place }
    {
        self.text + STUB_BYTES * place
    }

    /// The offset in the data of its cell.
    pub fn cell_offset(self, place: u32) -> u32
        requires room { HasRoom self }
        requires there { place < self.count }
        ensures { result ≡ cell_offset self place }
    {
        self.static_data + CELL_BYTES * place
    }

    /// The number of its symbol.
    pub fn stub_symbol(self, place: u32) -> u32
        requires room { HasRoom self }
        requires there { place < self.count }
        ensures { result ≡ stub_symbol self place }
    {
        self.symbols + STUB_SYMBOLS * place
    }

    /// The number of the symbol of its cell.
    pub fn cell_symbol(self, place: u32) -> u32
        requires room { HasRoom self }
        requires there { place < self.count }
        ensures { result ≡ cell_symbol self place }
    {
        self.symbols + STUB_SYMBOLS * place + 1
    }
}

// The end that a relocation gives, where it is in text, and else the one before.
fn end_after(end: usize, next: usize, reloc: &Reloc) -> usize
    ensures { result ≡ end_after end next reloc.now.area }
{
    if reloc.area == Area::Text { next } else { end }
}

/// How many relocations there are up to the last one in text.
pub fn text_end(relocs: &[Reloc]) -> usize
    ensures is { result ≡ text_end relocs.now }
    ensures within { result ≤ length relocs.now }
{
    let mut end = 0;
    for (k, reloc) in relocs.iter().enumerate() {
        end = end_after(end, k + 1, reloc);
    }
    end
}
