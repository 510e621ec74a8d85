ghost use Rattle.std.specs.Prelude.{◌≡◌, ◌≤◌, ◌∷◌, [], length, IfOk, MatchResult};
ghost use Rattle.cfi_request.specs.Reading.{HasRead, IsUnread, IsFound};

use crate::names::text_of;
use cfi_io::{Shelf, ShelfFault};
use cfi_values::{Bytes, Items, Text};
use std::alloc::{AllocError, Global};

/// Why a file is not read.
#[derive(Clone, Copy)]
pub enum Cause {
    /// The shelf failed.
    Failed,
    /// It is not there.
    Absent,
    /// It is too long to be read.
    TooLong,
}

/// A file that is not read.
#[derive(Drop)]
pub struct Unread {
    /// The file's name.
    pub name: Text,
    /// Why it is not read.
    pub cause: Cause,
}

// Reads the file of this name.
fn read_one<F: Shelf>(shelf: &mut F, name: &str) -> Result<Result<Bytes, Cause>, AllocError>
    ensures read { IfOk result (λ found. MatchResult found
        (HasRead (F.seen shelf.old) name.now)
        (IsUnread (F.seen shelf.old)
        (F.seen shelf.new) name.now)) }
    ensures same { (F.seen shelf.new).files ≡ (F.seen shelf.old).files }
    ensures faults { (F.seen shelf.old).faults ≤ (F.seen shelf.new).faults }
    ensures misses { (F.seen shelf.old).misses ≤ (F.seen shelf.new).misses }
{
    match shelf.read(name) {
        Ok(bytes) => Ok(Ok(Bytes::from_vec(bytes))),
        Err(ShelfFault::Failed) => Ok(Err(Cause::Failed)),
        Err(ShelfFault::Absent) => Ok(Err(Cause::Absent)),
        Err(ShelfFault::TooLong) => Ok(Err(Cause::TooLong)),
        Err(ShelfFault::Memory) => Err(AllocError),
    }
}

/// Reads the files of these names in order, up to the first that is not read.
pub fn read_files<F: Shelf>(
    alloc: Global,
    shelf: &mut F,
    names: &[Text],
) -> Result<Result<Items<Bytes>, Unread>, AllocError>
    ensures read { IfOk result (IsFound
        (F.seen shelf.old)
        (F.seen shelf.new) names.now) }
    ensures same { (F.seen shelf.new).files ≡ (F.seen shelf.old).files }
    ensures faults { (F.seen shelf.old).faults ≤ (F.seen shelf.new).faults }
    ensures misses { (F.seen shelf.old).misses ≤ (F.seen shelf.new).misses }
{
    let mut files = Vec::new(alloc);
    for name in names {
        match read_one(shelf, name.as_str())? {
            Ok(bytes) => files.push(bytes)?,
            Err(cause) => {
                let name = text_of(alloc, name.as_str())?;
                return Ok(Err(Unread { name, cause }));
            }
        }
    }
    Ok(Ok(Items::from_vec(files)))
}

/// The bytes of the one file.
pub fn only(files: &Items<Bytes>) -> &[u8]
    requires one { length files.now ≡ 1 }
    ensures { files.now ≡ result.now ∷ [] }
{
    files.as_slice()[0].as_slice()
}
