//! What is read of an object.

use cfi_values::{Bytes, Items, Text};

/// The name of a symbol or a function.
pub type Name = Text;

/// How a symbol may be seen from other objects.
#[derive(Clone, Copy, Debug, PartialEq, Eq)]
pub enum Binding {
    /// In its object alone.
    Local,
    /// By all objects.
    Global,
    /// By all objects, and another definition may take its place.
    Weak,
}

/// Where a symbol is defined.
#[derive(Clone, Copy, Debug, PartialEq, Eq)]
pub enum Place {
    /// In another object.
    Undefined,
    /// Nowhere: its value is a number.
    Absolute,
    /// In the joined text.
    Text,
    /// In the joined data.
    Data,
}

/// What a relocation changes.
#[derive(Clone, Copy, Debug, PartialEq, Eq)]
pub enum Area {
    /// The joined text.
    Text,
    /// The joined data.
    Data,
}

/// A symbol of an object.
#[derive(Debug, Drop)]
pub struct Symbol {
    /// Its name, empty for the symbol of a section.
    pub name: Name,
    /// Who sees it.
    pub binding: Binding,
    /// Where it is defined.
    pub place: Place,
    /// Its value: in text or data the bytes from the start of the joined text or data.
    pub value: u32,
}

/// A relocation of an object.
#[derive(Clone, Copy, Debug, PartialEq, Eq)]
pub struct Reloc {
    /// What it changes.
    pub area: Area,
    /// Where its field begins, in bytes from the start of the joined text or data.
    pub offset: u32,
    /// Its kind, by the numbers of the RISC-V ELF psABI.
    pub kind: u32,
    /// The number of its symbol among the object's, none where it has none.
    pub symbol: Option<u32>,
    /// Its addend.
    pub addend: i32,
}

/// The symbols of an object, in order.
pub type Symbols = Items<Symbol>;

/// The relocations of an object, in order.
pub type Relocs = Items<Reloc>;

/// What a relocatable file has for the linker: joined text and data, symbols, relocations and records.
#[derive(Debug, Drop)]
pub struct Object {
    /// The joined text, in whole words.
    pub text: Bytes,
    /// The joined data that the program starts with.
    pub static_data: Bytes,
    /// The symbols that are kept, in their order.
    pub symbols: Symbols,
    /// The relocations that are kept, in their order.
    pub relocs: Relocs,
    /// The bytes of the type section, if there is one.
    pub types: Option<Bytes>,
    /// The bytes of the record section, if there is one.
    pub records: Option<Bytes>,
}
