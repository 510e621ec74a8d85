//! A shelf of files, each of which has a name.
ghost use Rattle.std.specs.Prelude.{◌≡◌, ◌≤◌, ◌<◌, length, None, Some, vec_len, IfOk, OnOk, IsErrOf, IsSomeAnd};
ghost use Rattle.cfi_word.specs.declared.limits.TheConstants.{MAX_FILE_BYTES};
ghost use Rattle.cfi_io.specs.declared.fault.ShelfFault.TheVariants.{Failed, Absent, TooLong, Memory};
ghost use Rattle.cfi_io.specs.Count.{Rose};
ghost use Rattle.cfi_io.specs.Files.{Puts, PutsPart};
ghost use Rattle.cfi_io.specs.Seen.{ShelfView};
ghost use Rattle.cfi_io.specs.Told.{WhereTold, WhereKeptTold};
ghost use Rattle.cfi_io.specs.Undone.{after_read, after_write};

use crate::ShelfFault;

/// Files by name.
///
/// A count that is said to rise stands still at `u64::MAX`. No count ever falls.
pub trait Shelf {
    /// The files, where the shelf tells them, how often it has failed and has lacked a file, and the last call that was
    /// not done.
    ghost seen: { Self → ShelfView };

    /// The bytes of the file of this name, at most `MAX_FILE_BYTES`.
    ///
    /// `Failed` where the shelf failed, `Absent` where no file has the name, `TooLong` where the file has more than
    /// `MAX_FILE_BYTES` bytes, and `Memory`. The files stay as they were.
    fn read(&mut self, name: &str) -> Result<Vec<u8>, ShelfFault>
        ensures within { IfOk result (λ bytes. vec_len bytes ≤ MAX_FILE_BYTES) }
        ensures ok { IfOk result (λ bytes.
            WhereTold (seen self.old).files (λ told. told name.now ≡ Some bytes.items)) }
        ensures failed { IsErrOf result Failed
            → Rose (seen self.old).faults (seen self.new).faults }
        ensures absent { IsErrOf result Absent
            → Rose (seen self.old).misses (seen self.new).misses }
        ensures lacks { IsErrOf result Absent →
            WhereTold (seen self.old).files (λ told. told name.now ≡ None) }
        ensures too_long { IsErrOf result TooLong
            → Rose (seen self.old).misses (seen self.new).misses }
        ensures exceeds { IsErrOf result TooLong → WhereTold (seen self.old).files (λ told.
            IsSomeAnd (told name.now) (λ bytes. MAX_FILE_BYTES < length bytes)) }
        ensures same { (seen self.new).files ≡ (seen self.old).files }
        ensures last { (seen self.new).last ≡ after_read name.now result (seen self.old).last }
        ensures faults { (seen self.old).faults ≤ (seen self.new).faults }
        ensures misses { (seen self.old).misses ≤ (seen self.new).misses };

    /// Puts these bytes under this name, in place of a file that is there.
    ///
    /// `Failed` where the shelf failed: under the name stands what stood there, or some of the bytes from the first
    /// on. `Memory`: the files stay. No other fault comes. Files of other names stay as they were.
    fn write(&mut self, name: &str, bytes: &[u8]) -> Result<(), ShelfFault>
        ensures ok { OnOk result
            (WhereKeptTold (seen self.old).files (seen self.new).files (Puts name.now bytes.now)) }
        ensures failed { IsErrOf result Failed
            → Rose (seen self.old).faults (seen self.new).faults }
        ensures part { IsErrOf result Failed →
            WhereKeptTold (seen self.old).files (seen self.new).files
            (PutsPart name.now bytes.now) }
        ensures memory { IsErrOf result Memory → (seen self.new).files ≡ (seen self.old).files }
        ensures no_absent { IsErrOf result Absent → ⊥ }
        ensures no_too_long { IsErrOf result TooLong → ⊥ }
        ensures last { (seen self.new).last ≡ after_write name.now result (seen self.old).last }
        ensures faults { (seen self.old).faults ≤ (seen self.new).faults }
        ensures misses { (seen self.old).misses ≤ (seen self.new).misses };
}
