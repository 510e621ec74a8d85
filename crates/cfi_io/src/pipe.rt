//! Loops over single reads and writes of the system.
ghost use Rattle.std.specs.Prelude.{◌≡◌, ◌≤◌, ◌+◌, take, vec_len, IfOk, OnOk, OnErr};
ghost use Rattle.std.specs.Io.KnownBytes.{Appends};
ghost use Rattle.cfi_word.specs.declared.limits.TheConstants.{MAX_FILE_BYTES};
ghost use Rattle.cfi_io.specs.Told.{WhereTold, AppendsPrefix};

use cfi_word::limits::MAX_FILE_BYTES;
use std::alloc::Global;
use std::io;
use std::io::{Read, Write};

// How many bytes one read asks for.
const PIECE: usize = 4096;

/// Reads to the end, but no more than one byte past `MAX_FILE_BYTES`.
///
/// A read that gives nothing is the end.
pub fn read_file<R: Read>(alloc: Global, from: &mut R) -> io::Result<Vec<u8>>
    ensures within { IfOk result (λ bytes. vec_len bytes ≤ MAX_FILE_BYTES + 1) }
    ensures ok { IfOk result (λ bytes.
        WhereTold (R.remaining from.old) (λ left. bytes.items ≡ take (MAX_FILE_BYTES + 1) left)) }
{
    let mut bytes = Vec::new(alloc);
    let mut piece = [0u8; PIECE];
    while bytes.len() <= MAX_FILE_BYTES {
        let room = PIECE.min(MAX_FILE_BYTES + 1 - bytes.len());
        let count = from.read(&mut piece[..room])?;
        if count == 0 {
            break;
        }
        bytes.extend_from_slice(&piece[..count])?;
    }
    Ok(bytes)
}

/// Writes all bytes, and says whether they were taken.
///
/// A write that takes nothing is a failure.
pub fn write_file<W: Write>(to: &mut W, bytes: &[u8]) -> io::Result<()>
    ensures ok { OnOk result (Appends (W.contents to.old) (W.contents to.new) bytes.now) }
    ensures part { OnErr result (AppendsPrefix (W.contents to.old) (W.contents to.new) bytes.now) }
{
    let mut done = 0;
    while done < bytes.len() {
        let count = to.write(&bytes[done..])?;
        if count == 0 {
            return Err(io::Error::from(io::ErrorKind::WriteZero));
        }
        done += count;
    }
    Ok(())
}
