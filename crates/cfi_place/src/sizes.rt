//! Whether a module fits into its room.

ghost use Rattle.std.specs.Prelude.{◌≡◌, ◌≤◌, true, Result, OnOk, IfErr};
ghost use Rattle.cfi_place.specs.declared.fault.PlaceFault.{PlaceFault};
ghost use Rattle.cfi_place.specs.declared.fault.PlaceFault.TheVariants as faults;
ghost use Rattle.cfi_word.specs.declared.map.TheConstants.{DATA_END};
ghost use Rattle.cfi_place.specs.Relocated.{Areas};
ghost use Rattle.cfi_place.specs.Placed.{IsFault, where_fits, code_fits, data_fits};

use crate::fault::PlaceFault;
use crate::room::Room;
use cfi_word::map::DATA_END;
use elf_read::Object;

/// Refuses a text that does not fit into the code, then data that does not fit before `DATA_END`.
pub fn check_sizes(object: &Object, room: &Room) -> Result<(), PlaceFault>
    requires { room.now.data_base ≤ DATA_END }
    ensures words { OnOk result (code_fits object.now room.now ≡ true) }
    ensures bytes { OnOk result (data_fits object.now room.now ≡ true) }
    ensures fault { IfErr result (λ fault. (next : Result Areas PlaceFault) →
        IsFault fault (where_fits (code_fits object.now room.now) faults.CodeFull
        (where_fits (data_fits object.now room.now) faults.DataFull next))) }
{
    if object.text.len() / 4 + room.base as usize > room.code_words as usize {
        return Err(PlaceFault::CodeFull);
    }
    if object.static_data.len() > (DATA_END - room.data_base) as usize {
        return Err(PlaceFault::DataFull);
    }
    Ok(())
}
