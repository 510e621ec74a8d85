//! Saving a file so that it stands whole under its name, or what stood there stays.

use crate::pipe::write_file;
use std::alloc::{AllocError, Global};
use std::fs::{File, Metadata, Permissions};
use std::io::ErrorKind;
use std::os::unix::fs::PermissionsExt;
use std::path::{Path, PathBuf};
use std::{fs, io};

// How many names are tried for a part. What a process that was cut off has left keeps one.
const MAX_PARTS: u32 = 65_536;

// Of a mode, who may read, write and run a file.
const PERMISSION_BITS: u32 = 0o777;

/// Why a file was not saved.
#[derive(Drop)]
pub enum SaveFault {
    /// No memory was left for the name of a part. Nothing was changed.
    Memory,
    /// The system refused this.
    System(io::Error),
}

impl From<AllocError> for SaveFault {
    fn from(_: AllocError) -> Self {
        SaveFault::Memory
    }
}

impl From<io::Error> for SaveFault {
    fn from(error: io::Error) -> Self {
        SaveFault::System(error)
    }
}

// What stands under the name, where something does. A link is not followed.
fn found_at(rt: &HostRuntime, name: &str) -> io::Result<Option<Metadata>> {
    match fs::symlink_metadata(rt, name) {
        Ok(found) => Ok(Some(found)),
        Err(error) if error.kind() == ErrorKind::NotFound => Ok(None),
        Err(error) => Err(error),
    }
}

// Writes into what stands under the name.
fn write_into(rt: &HostRuntime, name: &str, bytes: &[u8]) -> io::Result<()> {
    let mut file = fs::create(rt, name)?;
    write_file(&mut file, bytes)
}

// A new file in the folder of the file of this name, under a name that was free: this process alone has made it.
fn new_part(rt: &HostRuntime, alloc: Global, name: &str) -> Result<(PathBuf, File), SaveFault> {
    for number in 0..MAX_PARTS {
        let free = format!(in alloc; "cfi-part-{number}")?;
        let part = Path::new(name).with_file_name(alloc, free.as_str())?;
        match File::create_new(rt, part.as_path()) {
            Err(error) if error.kind() == ErrorKind::AlreadyExists => {}
            made => return Ok((part, made?)),
        }
    }
    Err(SaveFault::System(io::Error::from(ErrorKind::AlreadyExists)))
}

// Writes the bytes into a part, which takes the name then.
fn move_in(
    rt: &HostRuntime,
    part: Path<'_>,
    mut file: File,
    name: &str,
    kept: Option<Permissions>,
    bytes: &[u8],
) -> io::Result<()> {
    if let Some(kept) = kept {
        file.set_permissions(kept)?;
    }
    write_file(&mut file, bytes)?;
    fs::rename(rt, part, Path::new(name))
}

// Replaces what stands under the name, if something does, by a file with these bytes and permissions.
fn replace(
    rt: &HostRuntime,
    alloc: Global,
    name: &str,
    kept: Option<Permissions>,
    bytes: &[u8],
) -> Result<(), SaveFault> {
    let (part, file) = new_part(rt, alloc, name)?;
    let moved = move_in(rt, part.as_path(), file, name, kept, bytes);
    if moved.is_err() {
        let _ = fs::remove_file(rt, part.as_path());
    }
    Ok(moved?)
}

// Whether the folder is one where names cannot be made or moved, though a file in it may take bytes.
fn keeps_its_names(fault: &SaveFault) -> bool {
    let SaveFault::System(error) = fault else {
        return false;
    };
    matches!(
        error.kind(),
        ErrorKind::PermissionDenied
            | ErrorKind::ReadOnlyFilesystem
            | ErrorKind::ResourceBusy
            | ErrorKind::InvalidFilename
    )
}

// What a file that is to be replaced hands on to the next. One that may not be written is not replaced.
fn kept_of(rt: &HostRuntime, name: &str, found: &Metadata) -> io::Result<Permissions> {
    File::options().write(true).open(rt, name)?;
    let mode = found.permissions().mode() & PERMISSION_BITS;
    Ok(Permissions::from_mode(mode))
}

/// Puts the bytes under the name, in place of a file that is there.
///
/// They are written under a free name of the same folder first, and take the name, with the permissions of the file
/// that is there, when all are written. What is no file, as a link or a device, is not replaced: it is written into,
/// and so is a file whose folder lets no name be made or moved.
pub fn save(rt: &HostRuntime, alloc: Global, name: &str, bytes: &[u8]) -> Result<(), SaveFault> {
    let kept = match found_at(rt, name)? {
        Some(found) if found.is_file() => Some(kept_of(rt, name, &found)?),
        Some(_) => return Ok(write_into(rt, name, bytes)?),
        None => None,
    };
    match replace(rt, alloc, name, kept, bytes) {
        Err(fault) if keeps_its_names(&fault) => Ok(write_into(rt, name, bytes)?),
        saved => saved,
    }
}
