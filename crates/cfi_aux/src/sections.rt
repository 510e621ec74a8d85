//! What module an object is.

ghost use Rattle.std.specs.Prelude.{◌≡◌, IfOk, Ok};
ghost use Rattle.elf_read.specs.declared.object.Object.{Object};
ghost use Rattle.cfi_type_table.specs.Spelling.{AreTypes, spelling};
ghost use Rattle.cfi_type_table.specs.Reading.{types_in};
ghost use Rattle.cfi_aux.specs.declared.modules.Module.{Module};
ghost use Rattle.cfi_aux.specs.Reading.{ReadingGives};
ghost use Rattle.cfi_aux.specs.Sound.{IsSoundModule};
ghost use Rattle.elf_read.specs.Sound.{IsSoundObject};
ghost use Rattle.cfi_aux.specs.Modules.{AreSpelled, IsModuleOf, as_types, parts_in};

use crate::fault::AuxFault;
use crate::modules::Module;
use crate::reading::records_of_data;
use crate::records::Records;
use cfi_type_table::{TypeTable, read_types};
use elf_read::Object;
use std::alloc::Global;

fn types_of(alloc: Global, bytes: &[u8]) -> Result<TypeTable, AuxFault>
    ensures ok { IfOk result (λ table. AreTypes table × (bytes.now ≡ spelling table)) }
    ensures fault { ReadingGives (λ table. table) result (as_types (types_in bytes.now)) }
{
    let table = read_types(alloc, bytes)?;
    Ok(table)
}

fn parts_of(alloc: Global, object: &Object) -> Result<(TypeTable, Records), AuxFault>
    ensures ok { IfOk result (λ parts. AreSpelled object.now parts.0 parts.1) }
    ensures fault { ReadingGives (λ parts. (parts.0, parts.1)) result (parts_in object.now) }
{
    let (Some(types), Some(records)) = (&object.types, &object.records) else {
        return Err(AuxFault::NoRecords);
    };
    let types = types_of(alloc, types.as_slice())?;
    let size = object.static_data.as_slice().len();
    let records = records_of_data(alloc, records.as_slice(), &types, size)?;
    Ok((types, records))
}

fn whole(alloc: Global, object: Object) -> Result<Module, AuxFault>
    ensures ok { IfOk result (IsModuleOf object) }
    ensures fault { ReadingGives (λ m. (m.types, m.records)) result (parts_in object) }
{
    let (types, records) = parts_of(alloc, &object)?;
    Ok(Module {
        object,
        types,
        records,
    })
}

/// The module that the object is, with the types and records that its two sections have.
///
/// A refusal drops the object. The faults come in the order of `AuxFault`; want of memory stands in no other fault. The
/// record of an import whose cell does not lie within the data is malformed.
/// MCFI, auxiliary information.
pub fn module_of(alloc: Global, object: Object) -> Result<Module, AuxFault>
    // The module is the object's.
    ensures ok { IfOk result (IsModuleOf object) }
    // It breaks no rule that its object does not.
    ensures sound { IsSoundObject object → IfOk result IsSoundModule }
    // Where there is such a module, it is the answer.
    ensures only { (m : Module) → IsModuleOf object m
        → ReadingGives (λ found. found) result (Ok m) }
    // Which fault it is.
    ensures fault { ReadingGives (λ m. (m.types, m.records)) result (parts_in object) }
{
    whole(alloc, object)
}
