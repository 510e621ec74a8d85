//! The records of a module.

use cfi_values::Items;
use elf_read::Name;

/// A function of a module.
#[derive(Debug, Drop)]
pub struct Function {
    /// Where it begins, in bytes from the start of the text.
    pub offset: u32,
    /// Its length in bytes.
    pub length: u32,
    /// The number of its type's node, from 0.
    pub ty: u32,
    /// Whether its address is taken.
    pub taken: bool,
    /// Its name.
    pub name: Name,
}

/// What an indirect jump of a module is.
#[derive(Debug, Drop)]
pub enum Kind {
    /// A call through a pointer to functions of the type of this node.
    Call(u32),
    /// A tail call through such a pointer.
    Tail(u32),
    /// A return.
    Return,
    /// A jump to one of these places, in bytes from the start of the text.
    Switch(Items<u32>),
    /// A tail call of the global function of this name, which may be in a module that comes later.
    Import {
        /// The function's name.
        name: Name,
        /// Where its address stands, in bytes from the start of the data: a cell of four bytes, which a module keeps
        /// within its data.
        cell: u32,
    },
}

/// The functions of a module, and what its indirect jumps are: entry k is that of the k-th.
#[derive(Debug, Drop)]
pub struct Records {
    /// The functions.
    pub functions: Items<Function>,
    /// The kinds of the indirect jumps, in the order of the text.
    pub branches: Items<Kind>,
}
