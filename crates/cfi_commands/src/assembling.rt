ghost use Rattle.std.specs.Prelude.{◌≤◌, length, IfOk, IfErr};
ghost use Rattle.cfi_word.specs.declared.limits.TheConstants.{MAX_FILE_BYTES};
ghost use Rattle.cfi_commands.specs.Assembling.{IsAssembled, IsSourceFault};
ghost use Rattle.cfi_commands.specs.Fault.{IsOfFile};

use crate::fault::CommandFault;
use crate::refusal::Refusal;
use cfi_made_law::assembled_are_within_limits;
use elf_write::laws::limits_fit;
use elf_write::write_object;
use rv_asm::{AsmFault, assemble};
use std::alloc::Global;

/// The file of the object that a source makes.
///
/// `text` is the whole source. A fault is the least of the first faulty line, as `rv_asm` has it.
pub fn assembled(alloc: Global, text: &[u8]) -> Result<Vec<u8>, CommandFault>
    requires small { length text.now ≤ MAX_FILE_BYTES }
    ensures ok { IfOk result (λ file. IsAssembled text.now file.items) }
    ensures fault { IfErr result (IsOfFile 0 (IsSourceFault text.now)) }
{
    assembled_are_within_limits();
    limits_fit();
    match assemble(alloc, text) {
        Ok(object) => Ok(write_object(alloc, &object)?),
        Err(AsmFault::Memory) => Err(CommandFault::Memory),
        Err(fault) => Err(CommandFault::File(0, Refusal::Asm(fault))),
    }
}
