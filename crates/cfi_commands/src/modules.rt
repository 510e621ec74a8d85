ghost use Rattle.std.specs.Prelude.{◌≡◌, All, IfOk, IfErr};
ghost use Rattle.cfi_aux.specs.Sound.{IsSoundModule};
ghost use Rattle.cfi_modules.specs.Series.{CanBeTaken};
ghost use Rattle.cfi_commands.specs.Modules.{AreModuleFiles, IsModulesFault, IsShortFile};

use crate::fault::CommandFault;
use crate::reading::read_module;
use cfi_aux::Module;
use cfi_values::{Bytes, Items};
use std::alloc::Global;

/// The modules that files are, one by one.
///
/// Each of `files` is a whole file, which is dropped once it is read: its memory is left to those after it. No file
/// after the first that is no module is looked into.
pub fn read_modules(alloc: Global, files: Items<Bytes>) -> Result<Items<Module>, CommandFault>
    requires small { All IsShortFile files }
    ensures ok { IfOk result (AreModuleFiles files) }
    ensures sound { IfOk result (All IsSoundModule) }
    ensures taken { IfOk result (All CanBeTaken) }
    ensures fault { IfErr result (IsModulesFault files) }
{
    let mut modules = Vec::new(alloc);
    for file in files.into_vec() {
        let found = read_module(alloc, modules.len(), file.as_slice())?;
        modules.push(found)?;
    }
    Ok(Items::from_vec(modules))
}
