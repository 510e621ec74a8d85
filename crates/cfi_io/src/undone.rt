//! Calls of a shelf that were not done.
ghost use Rattle.std.specs.Prelude.{◌≡◌, IfOk};

use cfi_values::Text;
use std::alloc::{AllocError, Global};

/// A call of a shelf that was not done, but for want of memory, with the name of its file.
#[derive(Debug, Drop)]
pub enum Undone {
    /// The shelf failed where it was to read the file.
    Read(Text),
    /// The file is not there, or too long to be read.
    Missed(Text),
    /// The shelf failed where it was to write the file.
    Write(Text),
}

/// The name of a file.
pub fn name_of(alloc: Global, name: &str) -> Result<Text, AllocError>
    ensures { IfOk result (λ text. text ≡ name.now) }
{
    Ok(Text::from_string(String::from_str(alloc, name)?))
}
