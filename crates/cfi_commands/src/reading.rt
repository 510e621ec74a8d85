ghost use Rattle.std.specs.Prelude.{◌≡◌, ◌≤◌, ◌⊎◌, length, IfOk, IfErr, Ok, Err};
ghost use Rattle.elf_read.specs.declared.rela.TheConstants.{MAX_FILE};
ghost use Rattle.cfi_aux.specs.declared.modules.Module.{Module};
ghost use Rattle.cfi_aux.specs.Sound.{IsSoundModule};
ghost use Rattle.cfi_commands.specs.declared.fault.CommandFault.TheVariants.{Memory};
ghost use Rattle.cfi_commands.specs.Fault.{IsOfFile};
ghost use Rattle.cfi_commands.specs.Reading.{IsModuleFile, IsFileFault};

use crate::fault::CommandFault;
use crate::refusal::Refusal;
use cfi_aux::{AuxFault, Module, module_of, what_is_read_is_sound};
use elf_read::{ElfFault, read_object};
use std::alloc::Global;

/// The module that a file is: an object, with the types and records that its two sections have.
///
/// `bytes` are the whole file, and `number` is its number among the command's files, from 0. A fault of the object
/// comes before one of its sections.
pub fn read_module(alloc: Global, number: usize, bytes: &[u8]) -> Result<Module, CommandFault>
    requires small { length bytes.now ≤ MAX_FILE }
    ensures ok { IfOk result (IsModuleFile bytes.now) }
    ensures sound { IfOk result IsSoundModule }
    ensures fault { IfErr result (IsOfFile number (IsFileFault bytes.now)) }
    ensures only { (m : Module) → IsModuleFile bytes.now m →
        (result ≡ Ok m) ⊎ (result ≡ Err Memory) }
{
    let object = match read_object(alloc, bytes) {
        Ok(object) => object,
        Err(ElfFault::Memory) => return Err(CommandFault::Memory),
        Err(fault) => return Err(CommandFault::File(number, Refusal::Elf(fault))),
    };
    what_is_read_is_sound();
    match module_of(alloc, object) {
        Ok(found) => Ok(found),
        Err(AuxFault::Memory) => Err(CommandFault::Memory),
        Err(fault) => Err(CommandFault::File(number, Refusal::Aux(fault))),
    }
}
