//! The files of the current folder as a shelf.
ghost use Rattle.std.specs.Prelude.{◌≡◌, ◌≤◌, ◌<◌, ℕ, length, None, vec_len, IfOk};
ghost use Rattle.cfi_word.specs.declared.limits.TheConstants.{MAX_FILE_BYTES};

use crate::count::raise;
use crate::pipe::read_file;
use crate::saving::{SaveFault, save};
use crate::undone::name_of;
use crate::{Shelf, ShelfFault, Undone};
use cfi_word::limits::MAX_FILE_BYTES;
use std::alloc::Global;
use std::io::ErrorKind;
use std::{fs, io};

/// The files of the current folder. It tells no content.
#[derive(Drop)]
pub struct DirShelf {
    rt: HostRuntime,
    alloc: Global,
    faults: u64,
    misses: u64,
    last: Option<Undone>,
    error: Option<io::Error>,
}

impl DirShelf {
    /// The shelf of the current folder, whose calls take memory from `alloc`. This call takes none.
    pub fn new(rt: HostRuntime, alloc: Global) -> Self
        ensures faults { (⟦<DirShelf as Shelf>⟧.seen result).faults ≡ 0 }
        ensures misses { (⟦<DirShelf as Shelf>⟧.seen result).misses ≡ 0 }
        ensures last { (⟦<DirShelf as Shelf>⟧.seen result).last ≡ None }
        ensures error { result.error ≡ None }
    {
        DirShelf {
            rt,
            alloc,
            faults: 0,
            misses: 0,
            last: None,
            error: None,
        }
    }

    /// What the system said of the last call that it refused.
    pub fn error(&self) -> Option<io::Error>
        ensures { result ≡ self.now.error }
    {
        self.error
    }
}

// The bytes of a file, or of its first `MAX_FILE_BYTES + 1`.
fn bytes_of(rt: &HostRuntime, alloc: Global, name: &str) -> io::Result<Vec<u8>> {
    let mut file = fs::open(rt, name)?;
    read_file(alloc, &mut file)
}

impl Shelf for DirShelf {
    ghost seen = { λ shelf. record {
      files = None;
      faults = shelf.faults;
      misses = shelf.misses;
      last = shelf.last;
    } };

    fn read(&mut self, name: &str) -> Result<Vec<u8>, ShelfFault> {
        let fault = match bytes_of(&self.rt, self.alloc, name) {
            Ok(bytes) if bytes.len() <= MAX_FILE_BYTES => return Ok(bytes),
            Ok(_) => ShelfFault::TooLong,
            Err(error) => {
                self.error = Some(error);
                fault_of(&error)
            }
        };
        match fault {
            ShelfFault::Failed => {
                self.last = Some(Undone::Read(name_of(self.alloc, name)?));
                raise(&mut self.faults);
            }
            ShelfFault::Absent | ShelfFault::TooLong => {
                self.last = Some(Undone::Missed(name_of(self.alloc, name)?));
                raise(&mut self.misses);
            }
            ShelfFault::Memory => {}
        }
        Err(fault)
    }

    fn write(&mut self, name: &str, bytes: &[u8]) -> Result<(), ShelfFault> {
        // The name is copied first: a save that failed is not answered as want of memory.
        let undone = Undone::Write(name_of(self.alloc, name)?);
        let error = match save(&self.rt, self.alloc, name, bytes) {
            Ok(()) => return Ok(()),
            Err(SaveFault::Memory) => return Err(ShelfFault::Memory),
            Err(SaveFault::System(error)) => error,
        };
        self.last = Some(undone);
        self.error = Some(error);
        raise(&mut self.faults);
        Err(ShelfFault::Failed)
    }
}

// What a read answers at an error of the system.
fn fault_of(error: &io::Error) -> ShelfFault {
    match error.kind() {
        ErrorKind::NotFound => ShelfFault::Absent,
        ErrorKind::OutOfMemory => ShelfFault::Memory,
        _ => ShelfFault::Failed,
    }
}
