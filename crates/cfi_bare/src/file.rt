//! Bare files.

ghost use Rattle.std.specs.Prelude.{◌≤◌, length, IfOk, IfErr};
ghost use Rattle.cfi_bare.specs.File.{IsBareFile, IsBareFault};
ghost use Rattle.cfi_modules.specs.Series.{CanBeTaken};
ghost use Rattle.cfi_word.specs.declared.limits.TheConstants.{MAX_FILE_BYTES};

use crate::fault::BareFault;
use crate::modules::module_of;
use cfi_aux::Module;
use std::alloc::Global;

/// The module of a bare file, or why it is none.
///
/// `bytes` are the file's, four to a word, the lowest first. No check has a record in it. Whether its words can run is
/// for the verifier to say.
pub fn read_bare(alloc: Global, bytes: &[u8]) -> Result<Module, BareFault>
    requires short { length bytes.now ≤ MAX_FILE_BYTES }
    ensures ok { IfOk result (IsBareFile bytes.now) }
    ensures taken { IfOk result CanBeTaken }
    ensures fault { IfErr result (IsBareFault bytes.now) }
{
    if bytes.len() % 4 != 0 {
        return Err(BareFault::Length(bytes.len()));
    }
    Ok(module_of(alloc, bytes)?)
}
