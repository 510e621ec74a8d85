ghost use Rattle.std.specs.Prelude.{◌<◌, ◌^◌, length, All, IfOk, IfErr};
ghost use Rattle.cfi_commands.specs.Linking.{IsLinkedFile, IsLinkingFault};
ghost use Rattle.cfi_commands.specs.Modules.{IsShortFile};

use crate::fault::CommandFault;
use crate::modules::read_modules;
use cfi_aux::read_can_be_written;
use cfi_link::{LinkFault, link};
use cfi_made_law::linked_are_within_limits;
use cfi_values::{Bytes, Items};
use elf_write::laws::limits_fit;
use elf_write::write_object;
use std::alloc::Global;

/// The file of the module that several are linked into.
///
/// Each of `files` is a whole file. A fault of a file comes before one of the modules together.
pub fn linked(alloc: Global, files: Items<Bytes>) -> Result<Vec<u8>, CommandFault>
    requires small { All IsShortFile files }
    requires count { length files < 2 ^ 32 }
    ensures ok { IfOk result (λ file. IsLinkedFile files file.items) }
    ensures fault { IfErr result (IsLinkingFault files) }
{
    read_can_be_written();
    let modules = read_modules(alloc, files)?;
    linked_are_within_limits();
    limits_fit();
    match link(alloc, modules.as_slice()) {
        Ok(output) => Ok(write_object(alloc, &output.object)?),
        Err(LinkFault::Memory) => Err(CommandFault::Memory),
        Err(fault) => Err(CommandFault::Together(fault)),
    }
}
