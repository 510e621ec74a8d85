//! Which objects can be written, and that what is written is read again.

ghost use Rattle.std.specs.Prelude.{◌≤◌, ◌<◌, ℕ, length, take};
ghost use Rattle.elf_read.specs.declared.fault.ElfFault.TheVariants.{Short};
ghost use Rattle.elf_read.specs.declared.header.TheConstants.{HEADER_SIZE};
ghost use Rattle.elf_read.specs.declared.rela.TheConstants.{MAX_FILE};
ghost use Rattle.elf_read.specs.declared.object.Object.{Object};
ghost use Rattle.elf_read.specs.Fault.{IsObject};
ghost use Rattle.elf_write.specs.File.{bytes_of, table_place, IsWritable};
ghost use Rattle.elf_write.specs.Limits.{IsWithinLimits};
ghost use Rattle.elf_write.specs.Whole.{IsWhole};
ghost use Rattle.elf_write.specs.Cut.{AreRefused};

/// Each object within the limits can be written, and its file is short enough for `read_object`. The program reads
/// shorter files alone, of at most `MAX_FILE_BYTES` of `cfi_word`.
pub fn limits_fit()
    ensures writable { (object : Object) → IsWithinLimits object → IsWritable object }
    ensures short { (object : Object) → IsWithinLimits object →
        length (bytes_of object) ≤ MAX_FILE }
{}

/// Some object is within the limits: the empty one.
pub fn some_object_is_within_limits()
    ensures { (object : Object) × IsWithinLimits object }
{}

/// What is written is read again: the bytes of an object that a file can be are that object, and no other, as
/// `read_object` has it.
pub fn written_is_read()
    ensures { (object : Object) → IsWhole object → IsObject (bytes_of object) object }
{}

/// Some object is one that a file can be: a word of text, a global symbol there, and a relocation with it.
pub fn some_object_is_whole()
    ensures { (object : Object) × IsWhole object }
{}

/// A file of which the last bytes are missing is refused by `read_object`, as too short: at 0 where its header is not
/// whole, else where the section headers begin, which stand at its end.
pub fn cut_files_are_short()
    ensures header { (object : Object) (k : ℕ) → IsWithinLimits object → k < HEADER_SIZE →
        AreRefused (take k (bytes_of object)) (Short 0) }
    ensures table { (object : Object) (k : ℕ) → IsWithinLimits object → HEADER_SIZE ≤ k →
        k < length (bytes_of object) →
        AreRefused (take k (bytes_of object)) (Short (table_place object)) }
{}
