//! A step of the second pass.

use crate::file::File;
use crate::row::Row;
use std::alloc::Global;

/// A step of the second pass, which adds what one line makes.
#[derive(Drop)]
pub struct Step<'a> {
    /// The heap on which what it makes is kept.
    pub alloc: Global,
    /// What all lines know of the whole.
    pub file: &'a File,
    /// The line.
    pub row: &'a Row,
}
