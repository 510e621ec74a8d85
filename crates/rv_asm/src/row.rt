//! A line of a source where it stands.

use crate::spot::Spot;
use elf_read::Name;
use rv_line::Statement;

/// A line of a source where it stands.
#[derive(Drop)]
pub struct Row {
    /// Its number, from 1.
    pub number: u32,
    /// Its label, if it has one.
    pub label: Option<Name>,
    /// Its statement. `None` where what stands there is no statement.
    pub statement: Option<Statement>,
    /// Where it stands.
    pub spot: Spot,
    /// How many names the source has up to it.
    pub names: u32,
}
