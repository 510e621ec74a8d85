ghost use Rattle.std.specs.Prelude.{◌≡◌, ◌≤◌, ◌⊎◌, length, IsOk, IfOk, IfErr};
ghost use Rattle.elf_read.specs.declared.rela.TheConstants.{MAX_FILE};
ghost use Rattle.elf_read.specs.declared.object.Object.{Object};
ghost use Rattle.cfi_commands.specs.declared.fault.CommandFault.TheVariants.{Memory};
ghost use Rattle.elf_read.specs.Fault.{IsObject};
ghost use Rattle.cfi_commands.specs.Fault.{IsOfFile};
ghost use Rattle.cfi_commands.specs.Listing.{IsObjectListing, IsObjectFault};

use crate::fault::CommandFault;
use crate::refusal::Refusal;
use elf_read::{ElfFault, read_object};
use rv_text::list;
use rv_words::words_of;
use std::alloc::Global;

/// The listing of the text of the object that a file is.
///
/// `bytes` are the whole file. A fault is the object's first. The listing is that of `rv_text`'s `list`.
pub fn listing_of(alloc: Global, bytes: &[u8]) -> Result<Vec<u8>, CommandFault>
    requires small { length bytes.now ≤ MAX_FILE }
    ensures ok { IfOk result (λ text. IsObjectListing bytes.now text.items) }
    ensures fault { IfErr result (IsOfFile 0 (IsObjectFault bytes.now)) }
    ensures only { (object : Object) → IsObject bytes.now object →
        (IsOk result) ⊎ (result ≡ Err Memory) }
{
    let object = match read_object(alloc, bytes) {
        Ok(object) => object,
        Err(ElfFault::Memory) => return Err(CommandFault::Memory),
        Err(fault) => return Err(CommandFault::File(0, Refusal::Elf(fault))),
    };
    let words = words_of(alloc, object.text.as_slice())?;
    let mut text = Vec::new(alloc);
    list(&words, &mut text)?;
    Ok(text)
}
