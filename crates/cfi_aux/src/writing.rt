//! Writes records as bytes.

ghost use Rattle.std.specs.Prelude.{◌≡◌, ◌<◌, ◌^◌, List, ◌++◌, length, All, OnOk, IfOk, Ok};
ghost use Rattle.std.specs.List.{flat_map};
ghost use Rattle.cfi_type_table.specs.Node.{Node};
ghost use Rattle.cfi_type_table.specs.Spelling.{word};
ghost use Rattle.cfi_aux.specs.declared.records.Records.{Records};
ghost use Rattle.cfi_aux.specs.Records.{AreRecordsIn, AreRecords, CanBeWritten, list_length, name_bytes, function_bytes, branch_bytes, spelling_in, spelling};
ghost use Rattle.cfi_aux.specs.Format.{import_words};
ghost use Rattle.cfi_aux.specs.Version.{version_for};
ghost use Rattle.cfi_aux.specs.declared.format.TheConstants.{IMPORT};
ghost use Rattle.cfi_aux.specs.declared.version.RecordVersion.{RecordVersion};
ghost use Rattle.cfi_aux.specs.Fault.{records_in};

use crate::format::{CALL, IMPORT, RETURN, SWITCH, TAIL, import_words};
use crate::name::padding;
use crate::records::{Function, Kind, Records};
use crate::version::{version_for, version_word};
use elf_read::Name;
use std::alloc::{AllocError, Global};

fn put_word(out: &mut Vec<u8>, number: u32) -> Result<(), AllocError>
    ensures { OnOk result (out.new.items ≡ out.old.items ++ word number) }
{
    out.extend_from_slice(&number.to_le_bytes())?;
    Ok(())
}

fn put_name(out: &mut Vec<u8>, name: &Name) -> Result<(), AllocError>
    requires { length name.now < 2 ^ 32 }
    ensures { OnOk result (out.new.items ≡ out.old.items ++ name_bytes name.now) }
{
    let text = name.as_str().as_bytes();
    put_word(out, text.len() as u32)?;
    out.extend_from_slice(text)?;
    out.extend_from_slice(&[0; 3][..padding(text.len())])?;
    Ok(())
}

fn put_function(out: &mut Vec<u8>, function: &Function) -> Result<(), AllocError>
    requires { length function.now.name < 2 ^ 32 }
    ensures { OnOk result (out.new.items ≡ out.old.items ++ function_bytes function.now) }
{
    put_word(out, function.offset)?;
    put_word(out, function.length)?;
    put_word(out, function.ty)?;
    put_word(out, u32::from(function.taken))?;
    put_name(out, &function.name)?;
    Ok(())
}

fn put_words(out: &mut Vec<u8>, kind: u32, words: &[u32]) -> Result<(), AllocError>
    requires { length words.now < 2 ^ 32 }
    ensures { OnOk result (out.new.items ≡
        out.old.items ++ (word kind ++ (word (length words.now) ++ flat_map word words.now))) }
{
    put_word(out, kind)?;
    put_word(out, words.len() as u32)?;
    for number in words {
        put_word(out, *number)?;
    }
    Ok(())
}

fn put_import(out: &mut Vec<u8>, name: &Name, cell: u32) -> Result<(), AllocError>
    requires { length name.now < 2 ^ 32 }
    ensures { OnOk result (out.new.items ≡ out.old.items ++
        (word IMPORT
        ++ (word (import_words (length name.now)) ++ (word cell ++ name_bytes name.now)))) }
{
    let words = import_words(name.as_str().len() as u32);
    put_word(out, IMPORT)?;
    put_word(out, words)?;
    put_word(out, cell)?;
    put_name(out, name)?;
    Ok(())
}

fn put_branch(out: &mut Vec<u8>, branch: &Kind) -> Result<(), AllocError>
    requires { list_length branch.now < 2 ^ 32 }
    ensures { OnOk result (out.new.items ≡ out.old.items ++ branch_bytes branch.now) }
{
    match branch {
        Kind::Call(node) => put_words(out, CALL, &[*node]),
        Kind::Tail(node) => put_words(out, TAIL, &[*node]),
        Kind::Return => put_words(out, RETURN, &[]),
        Kind::Switch(places) => put_words(out, SWITCH, places.as_slice()),
        Kind::Import { name, cell } => put_import(out, name, *cell),
    }
}

fn put_functions(out: &mut Vec<u8>, functions: &[Function]) -> Result<(), AllocError>
    requires { All (λ f. length f.name < 2 ^ 32) functions.now }
    ensures { OnOk result (out.new.items ≡ out.old.items ++ flat_map function_bytes functions.now) }
{
    for function in functions {
        put_function(out, function)?;
    }
    Ok(())
}

fn put_branches(out: &mut Vec<u8>, branches: &[Kind]) -> Result<(), AllocError>
    requires { All (λ b. list_length b < 2 ^ 32) branches.now }
    ensures { OnOk result (out.new.items ≡ out.old.items ++ flat_map branch_bytes branches.now) }
{
    for branch in branches {
        put_branch(out, branch)?;
    }
    Ok(())
}

/// The bytes that spell the records, in version 3 where a branch is an import and else in version 2. `read_records`
/// reads them from these where they are records of a type table.
///
/// The numbers of functions, of branches, of a name's bytes and of a switch's places are below 2^32.
pub fn write_records(alloc: Global, records: &Records) -> Result<Vec<u8>, AllocError>
    requires { CanBeWritten records.now }
    ensures { IfOk result (λ bytes. bytes.items ≡ spelling records.now) }
{
    let mut out = Vec::new(alloc);
    let functions = records.functions.as_slice();
    let branches = records.branches.as_slice();
    put_word(&mut out, version_word(version_for(branches)))?;
    put_word(&mut out, functions.len() as u32)?;
    put_word(&mut out, branches.len() as u32)?;
    put_functions(&mut out, functions)?;
    put_branches(&mut out, branches)?;
    Ok(out)
}

/// What is spelled in a version is read again, whatever the records and the type table that they name nodes of.
pub fn written_is_read()
    ensures { (version : RecordVersion) → (types : List Node) → (records : Records) →
        AreRecordsIn version types records →
        records_in types (spelling_in version records) ≡ Ok records }
{}

/// What is read can be written: records of a version are records of the latest, and these of the one that is written.
pub fn read_can_be_written()
    ensures good { (version : RecordVersion) → (types : List Node) → (records : Records) →
        AreRecordsIn version types records → AreRecords types records }
    ensures written { (types : List Node) → (records : Records) → AreRecords types records →
        AreRecordsIn (version_for records.branches) types records }
    ensures sized { (version : RecordVersion) → (types : List Node) → (records : Records) →
        AreRecordsIn version types records → CanBeWritten records }
{}
