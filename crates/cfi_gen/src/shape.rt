//! What is drawn for a module.

use cfi_values::{Items, Numbers};

/// The least number of modules that are drawn.
pub const MIN_COUNT: u32 = 2;

/// The greatest number.
pub const MAX_COUNT: u32 = 32;

/// The most functions that are drawn for a module.
pub const MAX_FUNCTIONS: usize = 7;

/// The most constants that are drawn for a function.
pub const MAX_CONSTANTS: usize = 6;

/// How a function is called.
#[derive(Clone, Copy, Debug, Drop)]
pub struct Kind {
    /// Its node, which is its type.
    pub node: u32,
    /// Whether its address is taken.
    pub taken: bool,
}

/// A function that was drawn.
#[derive(Drop)]
pub struct Function {
    /// How it is called.
    pub kind: Kind,
    /// The constants that it adds, in order.
    pub constants: Numbers,
}

/// A module that was drawn.
#[derive(Drop)]
pub struct Drawn {
    /// Its number, from 0.
    pub number: u32,
    /// Its functions, in order.
    pub functions: Items<Function>,
}
