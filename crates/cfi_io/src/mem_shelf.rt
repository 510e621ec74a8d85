//! A shelf in memory, some of whose calls fail.
ghost use Rattle.std.specs.Prelude.{◌≡◌, ◌≢◌, ◌≤◌, ◌<◌, ◌⊎◌, length, Some, Contains, vec_len, IfOk, OnOk, OnErr, IsErrOf, IsSomeAnd, None};
ghost use Rattle.std.specs.Option.{option_map};
ghost use Rattle.cfi_word.specs.declared.limits.TheConstants.{MAX_FILE_BYTES};
ghost use Rattle.cfi_io.specs.declared.fault.ShelfFault.TheVariants.{Failed, Absent, TooLong, Memory};
ghost use Rattle.cfi_io.specs.Count.{Rose, next_count};
ghost use Rattle.cfi_io.specs.Files.{Puts, PutsPart};
ghost use Rattle.cfi_io.specs.Held.{files_of, files_held, shelf_calls, shelf_fails, shelf_faults, shelf_misses, shelf_last, shelf_seen};
ghost use Rattle.cfi_io.specs.Undone.{after_read, after_write};

use crate::count::{Calls, raise};
use crate::undone::name_of;
use crate::{Shelf, ShelfFault, Undone};
use cfi_word::limits::MAX_FILE_BYTES;
use std::alloc::Global;

/// Files in memory, which tells them. Its calls are numbered from 0.
#[derive(Debug, Drop)]
pub struct MemShelf {
    alloc: Global,
    files: Vec<(String, Vec<u8>)>,
    calls: Calls,
    misses: u64,
    last: Option<Undone>,
}

impl MemShelf {
    /// A shelf with these pairs of name and bytes, whose calls with these numbers fail.
    ///
    /// Of two pairs with one name the later counts. Later calls take their memory from `alloc`; this one takes none.
    pub fn new(alloc: Global, files: Vec<(String, Vec<u8>)>, fails: Vec<u32>) -> Self
        ensures files { files_held result ≡ files_of files.items }
        ensures fails { shelf_fails result ≡ fails.items }
        ensures calls { shelf_calls result ≡ 0 }
        ensures faults { (⟦<MemShelf as Shelf>⟧.seen result).faults ≡ 0 }
        ensures misses { (⟦<MemShelf as Shelf>⟧.seen result).misses ≡ 0 }
        ensures last { (⟦<MemShelf as Shelf>⟧.seen result).last ≡ None }
    {
        MemShelf {
            alloc,
            files,
            calls: Calls::new(fails),
            misses: 0,
            last: None,
        }
    }

    /// The bytes of the file of this name, and `None` where no file has it. This is no numbered call.
    pub fn file(&self, name: &str) -> Option<&[u8]>
        ensures { option_map (λ bytes. bytes.now) result ≡ files_held self.now name.now }
    {
        match last_of(&self.files, name) {
            Some(bytes) => Some(bytes.as_slice()),
            None => None,
        }
    }
}

// The bytes of the last pair with this name.
fn last_of<'a>(files: &'a [(String, Vec<u8>)], name: &str) -> Option<&'a Vec<u8>>
    ensures { option_map (λ bytes. bytes.now.items) result ≡ files_of files.now name.now }
{
    let file = files.iter().rev().find(|file| file.0.as_str() == name);
    match file {
        Some(file) => Some(&file.1),
        None => None,
    }
}

impl Shelf for MemShelf {
    ghost seen = { shelf_seen };

    fn read(&mut self, name: &str) -> Result<Vec<u8>, ShelfFault>
        ensures within { IfOk result (λ bytes. vec_len bytes ≤ MAX_FILE_BYTES) }
        ensures ok { IfOk result (λ bytes. files_held self.old name.now ≡ Some bytes.items) }
        ensures failed { IsErrOf result Failed →
            Rose (shelf_faults self.old) (shelf_faults self.new) }
        ensures numbered { IsErrOf result Failed →
            Contains (shelf_fails self.old) (shelf_calls self.old) }
        ensures fails { Contains (shelf_fails self.old) (shelf_calls self.old) →
            (result ≡ Err Failed) ⊎ (result ≡ Err Memory) }
        ensures absent { IsErrOf result Absent →
            Rose (shelf_misses self.old) (shelf_misses self.new) }
        ensures lacks { IsErrOf result Absent → files_held self.old name.now ≡ None }
        ensures too_long { IsErrOf result TooLong →
            Rose (shelf_misses self.old) (shelf_misses self.new) }
        ensures exceeds { IsErrOf result TooLong →
            IsSomeAnd (files_held self.old name.now) (λ bytes. MAX_FILE_BYTES < length bytes) }
        ensures same { Some (files_held self.new) ≡ Some (files_held self.old) }
        ensures last { shelf_last self.new ≡ after_read name.now result (shelf_last self.old) }
        ensures faults { shelf_faults self.old ≤ shelf_faults self.new }
        ensures still { (result ≢ Err Failed) → shelf_faults self.new ≡ shelf_faults self.old }
        ensures misses { shelf_misses self.old ≤ shelf_misses self.new }
        ensures unmissed { (result ≢ Err Absent) → (result ≢ Err TooLong) →
            shelf_misses self.new ≡ shelf_misses self.old }
        ensures counted { shelf_calls self.new ≡ next_count (shelf_calls self.old) }
        ensures same_fails { shelf_fails self.new ≡ shelf_fails self.old }
    {
        if self.calls.fails_now() {
            self.last = Some(Undone::Read(name_of(self.alloc, name)?));
            raise(&mut self.calls.faults);
            return Err(ShelfFault::Failed);
        }
        let Some(bytes) = last_of(&self.files, name) else {
            self.last = Some(Undone::Missed(name_of(self.alloc, name)?));
            raise(&mut self.misses);
            return Err(ShelfFault::Absent);
        };
        if bytes.len() > MAX_FILE_BYTES {
            self.last = Some(Undone::Missed(name_of(self.alloc, name)?));
            raise(&mut self.misses);
            return Err(ShelfFault::TooLong);
        }
        Ok(bytes.to_vec(self.alloc)?)
    }

    fn write(&mut self, name: &str, bytes: &[u8]) -> Result<(), ShelfFault>
        ensures ok { OnOk result
            (Puts name.now bytes.now (files_held self.old) (files_held self.new)) }
        ensures failed { IsErrOf result Failed →
            Rose (shelf_faults self.old) (shelf_faults self.new) }
        ensures numbered { IsErrOf result Failed →
            Contains (shelf_fails self.old) (shelf_calls self.old) }
        ensures fails { Contains (shelf_fails self.old) (shelf_calls self.old) →
            (result ≡ Err Failed) ⊎ (result ≡ Err Memory) }
        ensures part { IsErrOf result Failed →
            PutsPart name.now bytes.now (files_held self.old) (files_held self.new) }
        ensures err { OnErr result (files_held self.new ≡ files_held self.old) }
        ensures memory { IsErrOf result Memory →
            Some (files_held self.new) ≡ Some (files_held self.old) }
        ensures no_absent { IsErrOf result Absent → ⊥ }
        ensures no_too_long { IsErrOf result TooLong → ⊥ }
        ensures last { shelf_last self.new ≡ after_write name.now result (shelf_last self.old) }
        ensures faults { shelf_faults self.old ≤ shelf_faults self.new }
        ensures still { (result ≢ Err Failed) → shelf_faults self.new ≡ shelf_faults self.old }
        ensures misses { shelf_misses self.old ≤ shelf_misses self.new }
        ensures unmissed { shelf_misses self.new ≡ shelf_misses self.old }
        ensures counted { shelf_calls self.new ≡ next_count (shelf_calls self.old) }
        ensures same_fails { shelf_fails self.new ≡ shelf_fails self.old }
    {
        if self.calls.fails_now() {
            self.last = Some(Undone::Write(name_of(self.alloc, name)?));
            raise(&mut self.calls.faults);
            return Err(ShelfFault::Failed);
        }
        let name = String::from_str(self.alloc, name)?;
        let bytes = bytes.to_vec(self.alloc)?;
        self.files.push((name, bytes))?;
        Ok(())
    }
}
