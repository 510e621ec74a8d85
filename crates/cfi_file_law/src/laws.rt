//! What the files that the program saves are read as.

ghost use Rattle.std.specs.Prelude.{◌≡◌, ◌≢◌, ℕ, ◌+◌, ◌<◌, ◌^◌, true, false, List, [], ◌∷◌, length, All, Result, Ok, Err};
ghost use Rattle.cfi_io.specs.Count.{Rose};
ghost use Rattle.cfi_io.specs.Seen.{ShelfView};
ghost use Rattle.cfi_request.specs.Reading.{IsFound, IsShort};
ghost use Rattle.cfi_request.specs.declared.reading.Cause.TheVariants.{TooLong};
ghost use Rattle.cfi_request.specs.declared.reading.Unread.{Unread};
ghost use Rattle.elf_read.specs.Fault.{IsObject};
ghost use Rattle.cfi_aux.specs.declared.modules.Module.{Module};
ghost use Rattle.cfi_aux.specs.declared.placed.Placed.{Placed};
ghost use Rattle.elf_write.specs.File.{bytes_of};
ghost use Rattle.cfi_instr_law.specs.Example.{loop_room, no_names};
ghost use Rattle.cfi_instr_law.specs.Proper.{IsMadeAt, IsProper};
ghost use Rattle.cfi_place.specs.declared.room.Room.{Room};
ghost use Rattle.cfi_place.specs.Names.{Names};
ghost use Rattle.cfi_place.specs.Placed.{IsRoom, IsPlaced};
ghost use Rattle.cfi_instr.specs.Output.{IsInstrumented};
ghost use Rattle.cfi_commands.specs.Assembling.{IsAssembled};
ghost use Rattle.cfi_verify.specs.Fault.{Verifies};
ghost use Rattle.cfi_commands.specs.Reading.{IsModuleFile, IsFileFault};
ghost use Rattle.cfi_commands.specs.declared.refusal.Refusal.TheVariants.{Aux};
ghost use Rattle.cfi_aux.specs.declared.fault.AuxFault.TheVariants.{NoRecords, BadRecord};
ghost use Rattle.cfi_commands.specs.Instrumenting.{IsInstrumentedFile};
ghost use Rattle.cfi_commands.specs.Linking.{IsLinkedFile};
ghost use Rattle.cfi_commands.specs.Stubbing.{IsStubbedFile};
ghost use Rattle.cfi_link.specs.Linked.{AreModules, Linked};
ghost use Rattle.cfi_made_law.specs.Order.{object_of_file, module_of_file};
ghost use Rattle.cfi_aux.specs.declared.modules.Module.{Module};
ghost use Rattle.cfi_made_law.specs.Read.{IsReadOf};
ghost use Rattle.cfi_file_law.specs.Source.{has_records, source_records, IsSourceModule, IsFew, IsFirstLong};
ghost use Rattle.cfi_file_law.specs.Saved.{AreBytes, IsSavedAt};
ghost use Rattle.cfi_file_law.specs.Told.{Tells};
ghost use Rattle.cfi_file_law.specs.Example.{call_source, call_made, call_placed};
ghost use Rattle.cfi_file_law.specs.SourceExample.{return_source, return_object};
ghost use Rattle.cfi_file_law.specs.LinkedExample.{linked_inputs, linked_files, linked_output};

use cfi_aux::{read_can_be_written, what_is_read_is_sound};
use cfi_instr_law::instrumented_are_proper;
use cfi_made_law::assembled_are_whole;
use elf_write::laws::written_is_read;

/// Where the shelf does not fail, a file that it tells is read as it is if it is short enough to be read, which is of
/// at most `MAX_FILE_BYTES` bytes, and refused as too long if it is longer.
pub fn told_are_read()
    ensures short { (shelf shelf' : ShelfView) (name file : List ℕ)
        (found : Result (List (List ℕ)) Unread) → Tells shelf name file →
        ¬ Rose shelf.faults shelf'.faults → IsFound shelf shelf' (name ∷ []) found →
        IsShort file → found ≡ Ok (file ∷ []) }
    ensures long { (shelf shelf' : ShelfView) (name file : List ℕ)
        (found : Result (List (List ℕ)) Unread) → Tells shelf name file →
        ¬ Rose shelf.faults shelf'.faults → IsFound shelf shelf' (name ∷ []) found →
        ¬ IsShort file → found ≡ Err (record { name = name; cause = TooLong }) }
{}

/// The file that `instrument` saves, if it is short enough to be read, is read as the module that was made.
pub fn instrumented_are_read()
    ensures { (bytes file : List ℕ) → AreBytes bytes → (is : IsInstrumentedFile bytes file) →
        IsShort file → IsModuleFile file (module_of_file is.out) }
{
    what_is_read_is_sound();
    written_is_read();
}

/// The module of a file that `instrument` saved of one with text has, at its place, no fault but jumps that lead
/// elsewhere, whatever modules are loaded.
pub fn saved_are_proper()
    ensures { (bytes file : List ℕ) (room : Room) (names : Names) (placed : Placed) →
        IsSavedAt bytes file room names placed → (loaded : List Placed) → IsProper placed loaded }
{
    instrumented_are_read();
    what_is_read_is_sound();
}

/// The file that `link` saves, if it is short enough to be read, is read as the module that was made.
pub fn linked_are_read()
    ensures { (files : List (List ℕ)) (file : List ℕ) → All AreBytes files →
        length files < 2 ^ 32 → (is : IsLinkedFile files file) → IsShort file →
        IsModuleFile file is.output }
{
    what_is_read_is_sound();
    written_is_read();
    read_can_be_written();
}

/// The file that `stub` saves, if it is short enough to be read, is read as the module that was made.
pub fn stubbed_are_read()
    ensures { (bytes file : List ℕ) → AreBytes bytes → (is : IsStubbedFile bytes file) →
        IsShort file → IsModuleFile file (module_of_file is.out) }
{
    what_is_read_is_sound();
    written_is_read();
}

/// What `stub` makes of a file has, once it is instrumented and placed, no fault but jumps that lead elsewhere,
/// whatever modules are loaded.
pub fn stubbed_are_proper()
    ensures { (bytes file : List ℕ) (is : IsStubbedFile bytes file) (made : Module) (room : Room)
        (names : Names) (placed : Placed) → is.out.object.text ≢ [] →
        IsInstrumented is.out made → IsRoom room → IsPlaced made room names placed →
        (loaded : List Placed) → IsProper placed loaded }
{
    what_is_read_is_sound();
    instrumented_are_proper();
}

/// The file that `asm` saves, if it is short enough to be read, is read as the object that was made.
pub fn assembled_are_read()
    ensures { (text file : List ℕ) → IsShort text → (is : IsAssembled text file) →
        IsShort file → IsObject file (object_of_file is.object) }
{
    assembled_are_whole();
    written_is_read();
}

/// What a file that `asm` saved is read as, if it is short enough to be read. One of a source without a line of records
/// is no module, for it has none; one of a source with such lines is the module of its lines, or the record of the
/// first branch that has too many words is a bad one.
pub fn assembled_are_modules()
    ensures bare { (text file : List ℕ) → IsShort text → IsAssembled text file → IsShort file →
        has_records text ≡ false → IsFileFault file (Aux NoRecords) }
    ensures module { (text file : List ℕ) → IsShort text → (is : IsAssembled text file) →
        IsShort file → has_records text ≡ true → All IsFew (source_records text).branches →
        (m : Module) × IsSourceModule text (object_of_file is.object) m × IsModuleFile file m }
    ensures long { (text file : List ℕ) → IsShort text → IsAssembled text file → IsShort file →
        has_records text ≡ true → (number : ℕ) → IsFirstLong (source_records text).branches number →
        IsFileFault file (Aux (BadRecord (length (source_records text).functions + number))) }
{
    assembled_are_read();
}

/// A module with a masked access, a call under a relocation and a check is instrumented and placed.
pub fn some_call_is_instrumented()
    ensures { IsMadeAt call_source call_made loop_room no_names call_placed }
{}

/// No fault of the verifier stands against that module at its place.
pub fn some_call_verifies()
    ensures { Verifies call_placed [] }
{
    some_call_is_instrumented();
    instrumented_are_proper();
}

/// That module is read of a file, and the file that `instrument` saves of it is read and placed.
pub fn some_call_is_saved()
    ensures read { IsReadOf call_source }
    ensures saved { IsSavedAt (bytes_of call_source.object) (bytes_of call_made.object) loop_room
        no_names call_placed }
{
    written_is_read();
}

/// That module, instrumented, is linked with itself, and so are the files that it is read of.
pub fn some_calls_are_linked()
    ensures modules { AreModules linked_inputs }
    ensures read { All IsReadOf linked_inputs }
    ensures linked { Linked linked_inputs linked_output }
    ensures bytes { All AreBytes linked_files }
    ensures files { IsLinkedFile linked_files (bytes_of linked_output.object) }
    ensures short { IsShort (bytes_of linked_output.object) }
{
    written_is_read();
}

/// Some source with records is assembled, and no branch of it has too many words.
pub fn some_source_is_assembled()
    ensures assembled { IsAssembled return_source (bytes_of return_object) }
    ensures records { has_records return_source ≡ true }
    ensures few { All IsFew (source_records return_source).branches }
    ensures short { IsShort return_source }
    ensures read { IsShort (bytes_of return_object) }
{}
