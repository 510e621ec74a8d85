//! The files of sources.

ghost use Rattle.std.specs.Prelude.{◌≡◌, ◌≤◌, length, All, IfOk, IfErr};
ghost use Rattle.cfi_commands.specs.Fault.{IsOfFile};
ghost use Rattle.cfi_commands.specs.Modules.{IsShortFile};
ghost use Rattle.cfi_gen.specs.Drawn.{AreFunctions};
ghost use Rattle.cfi_gen.specs.Source.{source_text};
ghost use Rattle.cfi_gen.specs.declared.shape.TheConstants.{MAX_COUNT};
ghost use Rattle.cfi_gen.specs.Generated.{AreMadeFiles, IsMadeFile, IsSourcesFault, RefusesSource};
ghost use Rattle.cfi_gen.specs.inner.Fault.{fault_at};
ghost use Rattle.cfi_word.specs.declared.limits.TheConstants.{MAX_FILE_BYTES};

use crate::lengths::sources_are_short;
use crate::shape::Drawn;
use crate::source::source_of;
use cfi_commands::{CommandFault, assembled, instrumented};
use cfi_made_law::{assembled_are_within_limits, instrumented_are_within_limits};
use cfi_values::{Bytes, Items};
use elf_write::laws::limits_fit;
use std::alloc::Global;

// The file of a source: its object, written, is read, instrumented and written again.
fn file_of(alloc: Global, text: &[u8]) -> Result<Vec<u8>, CommandFault>
    requires small { length text.now ≤ MAX_FILE_BYTES }
    ensures ok { IfOk result (λ file. IsMadeFile text.now file.items) }
    ensures short { IfOk result (λ file. IsShortFile file.items) }
    ensures fault { IfErr result (IsOfFile 0 (RefusesSource text.now)) }
{
    assembled_are_within_limits();
    instrumented_are_within_limits();
    limits_fit();
    let object = assembled(alloc, text)?;
    instrumented(alloc, &object)
}

// The file of a drawn module, of so many.
fn file_of_drawn(alloc: Global, count: u32, one: &Drawn) -> Result<Bytes, CommandFault>
    requires some { 1 ≤ count }
    requires few { count ≤ MAX_COUNT }
    requires functions { AreFunctions one.now.functions }
    ensures ok { IfOk result (IsMadeFile (source_text count one.now)) }
    ensures short { IfOk result IsShortFile }
    ensures fault { IfErr result (IsOfFile 0 (RefusesSource (source_text count one.now))) }
{
    sources_are_short();
    let _number = one.number;
    let text = source_of(alloc, count, one)?;
    Ok(Bytes::from_vec(file_of(alloc, text.as_bytes())?))
}

// The same fault, of the source of this number.
fn at(number: usize, fault: CommandFault) -> CommandFault
    ensures { result ≡ fault_at number fault }
{
    match fault {
        CommandFault::File(_, refusal) => CommandFault::File(number, refusal),
        CommandFault::Together(fault) => CommandFault::Together(fault),
        CommandFault::Memory => CommandFault::Memory,
    }
}

/// The files of drawn modules, of so many, in order. The fault is that of the first source that is refused.
pub fn files_of(alloc: Global, count: u32, drawn: &[Drawn]) -> Result<Items<Bytes>, CommandFault>
    requires some { 1 ≤ count }
    requires few { count ≤ MAX_COUNT }
    requires functions { All (λ one. AreFunctions one.functions) drawn.now }
    ensures ok { IfOk result (AreMadeFiles count drawn.now) }
    ensures short { IfOk result (All IsShortFile) }
    ensures fault { IfErr result (IsSourcesFault count drawn.now) }
{
    let mut files = Vec::new(alloc);
    for one in drawn {
        match file_of_drawn(alloc, count, one) {
            Ok(file) => files.push(file)?,
            Err(fault) => return Err(at(files.len(), fault)),
        }
    }
    Ok(Items::from_vec(files))
}
