ghost use Rattle.std.specs.Prelude.{◌≤◌, length, IfOk, IfErr};
ghost use Rattle.elf_read.specs.declared.rela.TheConstants.{MAX_FILE};
ghost use Rattle.cfi_commands.specs.Fault.{IsOfFile};
ghost use Rattle.cfi_commands.specs.Stubbing.{IsStubbedFile, IsStubbingFault};

use crate::fault::CommandFault;
use crate::reading::read_module;
use crate::refusal::Refusal;
use cfi_aux::read_can_be_written;
use cfi_import::{StubFault, with_stubs};
use cfi_made_law::stubbed_are_within_limits;
use elf_write::laws::limits_fit;
use elf_write::write_object;
use std::alloc::Global;

/// The file of the module that a file is, with stubs for the functions that it calls and that may come later.
///
/// `bytes` are the whole file. A fault of the file comes before one of its module.
pub fn stubbed(alloc: Global, bytes: &[u8]) -> Result<Vec<u8>, CommandFault>
    requires small { length bytes.now ≤ MAX_FILE }
    ensures ok { IfOk result (λ file. IsStubbedFile bytes.now file.items) }
    ensures fault { IfErr result (IsOfFile 0 (IsStubbingFault bytes.now)) }
{
    read_can_be_written();
    let source = read_module(alloc, 0, bytes)?;
    stubbed_are_within_limits();
    limits_fit();
    match with_stubs(alloc, &source) {
        Ok(out) => Ok(write_object(alloc, &out.object)?),
        Err(StubFault::Memory) => Err(CommandFault::Memory),
        Err(fault) => Err(CommandFault::File(0, Refusal::Import(fault))),
    }
}
