//! The object of a source.

ghost use Rattle.std.specs.Prelude.{◌≡◌, ◌<◌, ◌++◌, ◌^◌, length, All, IfOk};
ghost use Rattle.cfi_type_table.specs.Spelling.{spelling as types_spelling};
ghost use Rattle.cfi_aux.specs.Records.{CanBeWritten, spelling as records_spelling};
ghost use Rattle.rv_asm.specs.Made.{only_if};
ghost use Rattle.rv_asm.specs.inner.Passes.{object_of};

use crate::draft::Draft;
use crate::file::File;
use cfi_aux::{Records, write_records};
use cfi_type_table::{TypeTable, write_types};
use cfi_values::{Bytes, Items};
use elf_read::{Object, Reloc, Relocs};
use std::alloc::{AllocError, Global};

// The bytes of a type table, where the source has records.
fn types_of(alloc: Global, wanted: bool, table: &TypeTable) -> Result<Option<Bytes>, AllocError>
    requires nodes { length table.now < 2 ^ 32 }
    requires fields { All (λ node. length node.fields < 2 ^ 32) table.now }
    ensures { IfOk result (λ bytes. bytes ≡ only_if wanted (types_spelling table.now)) }
{
    if wanted {
        Ok(Some(Bytes::from_vec(write_types(alloc, table)?)))
    } else {
        Ok(None)
    }
}

// The bytes of records, where the source has them.
fn records_of(alloc: Global, wanted: bool, records: &Records) -> Result<Option<Bytes>, AllocError>
    requires { CanBeWritten records.now }
    ensures { IfOk result (λ bytes. bytes ≡ only_if wanted (records_spelling records.now)) }
{
    if wanted {
        Ok(Some(Bytes::from_vec(write_records(alloc, records)?)))
    } else {
        Ok(None)
    }
}

// The bytes of a type table and of records, where the source has them.
fn sections_of(
    alloc: Global,
    wanted: bool,
    table: &TypeTable,
    records: &Records,
) -> Result<(Option<Bytes>, Option<Bytes>), AllocError>
    requires nodes { length table.now < 2 ^ 32 }
    requires fields { All (λ node. length node.fields < 2 ^ 32) table.now }
    requires records { CanBeWritten records.now }
    ensures types { IfOk result (λ both.
        both.0 ≡ only_if wanted (types_spelling table.now)) }
    ensures records { IfOk result (λ both.
        both.1 ≡ only_if wanted (records_spelling records.now)) }
{
    let types = types_of(alloc, wanted, table)?;
    Ok((types, records_of(alloc, wanted, records)?))
}

// The relocations of the text, and then those of the data.
fn joined(text: Vec<Reloc>, after: &[Reloc]) -> Result<Vec<Reloc>, AllocError>
    ensures { IfOk result (λ relocs. relocs.items ≡ text.items ++ after.now) }
{
    let mut relocs = text;
    relocs.extend_from_slice(after)?;
    Ok(relocs)
}

impl Draft {
    /// The object.
    pub fn into_object(self, alloc: Global, file: File) -> Result<Object, AllocError>
        ensures { IfOk result (λ object. object ≡ object_of file self) }
    {
        let relocs = joined(self.text_relocs, self.data_relocs.as_slice())?;
        let table = TypeTable::from_vec(self.nodes);
        let records = Records {
            functions: Items::from_vec(self.functions),
            branches: Items::from_vec(self.branches),
        };
        let (types, records) = sections_of(alloc, file.records, &table, &records)?;
        Ok(Object {
            text: Bytes::from_vec(self.text),
            static_data: Bytes::from_vec(self.data_bytes),
            symbols: file.names.into_symbols(alloc)?,
            relocs: Relocs::from_vec(relocs),
            types,
            records,
        })
    }
}
