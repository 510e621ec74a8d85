//! A module with stubs.

ghost use Rattle.std.specs.Prelude.{◌≡◌, ◌++◌, ◌≤◌, ◌<◌, ◌^◌, ℕ, None, length, OnOk, IfOk, IfErr};
ghost use Rattle.cfi_import.specs.Limit.{passed, module_sizes};
ghost use Rattle.cfi_aux.specs.Records.{CanBeWritten};
ghost use Rattle.cfi_aux.specs.Sound.{IsSoundModule};
ghost use Rattle.cfi_import.specs.Imports.{imports_of, names_of, place_of};
ghost use Rattle.cfi_import.specs.Start.{start_of};
ghost use Rattle.cfi_import.specs.Stubs.{stub_nodes};
ghost use Rattle.cfi_import.specs.Stubbed.{parts_of, stubbed_parts, stubs_pass, IsStubbed, IsStubFault};
ghost use Rattle.cfi_import.specs.inner.Found.{place_in};
ghost use Rattle.cfi_import.specs.inner.Made.{IsReady, AreWritable, AreRecordsWith, IsObjectWith};
ghost use Rattle.cfi_import.specs.inner.Room.{HasRoom};

use crate::copies::{copied_functions, copied_section, push_symbols};
use crate::fault::StubFault;
use crate::imports::{Imports, find_imports};
use crate::limit::passed;
use crate::object_sizes::sizes_of;
use crate::records::{push_branches, push_functions, push_nodes};
use crate::relocs::with_relocs;
use crate::sizes::sizes_with;
use crate::start::{Start, start_of};
use crate::symbols::with_symbols;
use crate::texts::{with_cells, with_texts};
use cfi_aux::{Module, Records, copied_branches, copied_bytes, write_records};
use cfi_type_table::{TypeTable, write_types};
use cfi_values::{Bytes, Items};
use elf_read::{Name, Object, Relocs, Symbols};
use std::alloc::{AllocError, Global};

// The same object in memory of its own.
fn copied_object(alloc: Global, object: &Object) -> Result<Object, AllocError>
    ensures { IfOk result (λ made. made ≡ object.now) }
{
    let mut symbols = Vec::with_capacity(alloc, object.symbols.len())?;
    push_symbols(alloc, &mut symbols, object.symbols.as_slice())?;
    let relocs = Vec::from_slice(alloc, object.relocs.as_slice())?;
    Ok(Object {
        text: copied_bytes(alloc, &object.text)?,
        static_data: copied_bytes(alloc, &object.static_data)?,
        symbols: Symbols::from_vec(symbols),
        relocs: Relocs::from_vec(relocs),
        types: copied_section(alloc, &object.types)?,
        records: copied_section(alloc, &object.records)?,
    })
}

// The same module.
fn copied(alloc: Global, source: &Module) -> Result<Module, AllocError>
    ensures object { IfOk result (λ made. made.object ≡ source.now.object) }
    ensures types { IfOk result (λ made. made.types ≡ source.now.types) }
    ensures records { IfOk result (λ made. made.records ≡ source.now.records) }
{
    let object = copied_object(alloc, &source.object)?;
    let types = source.types.copied(alloc)?;
    let functions = copied_functions(alloc, source.records.functions.as_slice())?;
    let branches = copied_branches(alloc, source.records.branches.as_slice())?;
    Ok(Module {
        object,
        types,
        records: Records {
            functions: Items::from_vec(functions),
            branches: Items::from_vec(branches),
        },
    })
}

// The types with that of stubs.
fn types_with(alloc: Global, types: &TypeTable, start: Start) -> Result<TypeTable, AllocError>
    ensures { IfOk result (λ made. made ≡ types.now ++ stub_nodes start) }
{
    let mut nodes = types.copied(alloc)?.into_vec();
    push_nodes(alloc, &mut nodes, start)?;
    Ok(TypeTable::from_vec(nodes))
}

// The records with those of the stubs of these names.
fn records_with(
    alloc: Global,
    records: &Records,
    start: Start,
    names: &[Name],
) -> Result<Records, AllocError>
    requires room { HasRoom start }
    requires all { length names.now ≤ start.count }
    ensures { IfOk result (AreRecordsWith start names.now records.now) }
{
    let mut functions = copied_functions(alloc, records.functions.as_slice())?;
    push_functions(alloc, &mut functions, start, names)?;
    let mut branches = copied_branches(alloc, records.branches.as_slice())?;
    push_branches(alloc, &mut branches, start, names)?;
    Ok(Records {
        functions: Items::from_vec(functions),
        branches: Items::from_vec(branches),
    })
}

// The object with stubs, whose sections spell these types and records.
fn object_with(
    alloc: Global,
    object: &Object,
    start: Start,
    places: &[Option<u32>],
    types: &TypeTable,
    records: &Records,
) -> Result<Object, AllocError>
    requires ready { IsReady object.now start (place_in places.now) }
    requires written { AreWritable types.now records.now }
    ensures { IfOk result
        (IsObjectWith start (place_in places.now) types.now records.now object.now) }
{
    let text = with_texts(alloc, object.text.as_slice(), start.count)?;
    let static_data = with_cells(alloc, object.static_data.as_slice(), start.count)?;
    let symbols = with_symbols(alloc, start, object.symbols.as_slice())?;
    let relocs = with_relocs(alloc, start, places, object.relocs.as_slice())?;
    Ok(Object {
        text: Bytes::from_vec(text),
        static_data: Bytes::from_vec(static_data),
        symbols: Symbols::from_vec(symbols),
        relocs: Relocs::from_vec(relocs),
        types: Some(Bytes::from_vec(write_types(alloc, types)?)),
        records: Some(Bytes::from_vec(write_records(alloc, records)?)),
    })
}

// The module with stubs for these imports, of which there is one at least.
fn make(alloc: Global, source: &Module, found: &Imports) -> Result<Module, AllocError>
    requires sound { IsSoundModule source.now }
    requires written { CanBeWritten source.now.records }
    requires within { stubs_pass source.now ≡ None }
    requires names { found.now.names.items ≡ names_of (imports_of source.now.object) }
    requires places { (number : ℕ) →
        place_in found.now.places.items number ≡ place_of (imports_of source.now.object) number }
    requires some { 0 < length found.now.names.items }
    ensures { IfOk result (IsStubbed source.now) }
{
    let start = start_of(source, found.names.len() as u32);
    let types = types_with(alloc, &source.types, start)?;
    let records = records_with(alloc, &source.records, start, &found.names)?;
    let object = object_with(
        alloc,
        &source.object,
        start,
        &found.places,
        &types,
        &records,
    )?;
    Ok(Module {
        object,
        types,
        records,
    })
}

/// The module with a stub for each function that it calls or jumps to and that another one is to define.
///
/// A stub jumps to the address that a cell of the module's data holds, so that the function may come later; the calls
/// and jumps lead to the stub. Without such a function the module is the same. `TooMany` names the first limit on one
/// object that the module with stubs passes. For sound modules that can be written. RISC-V ELF psABI, "Relocations".
pub fn with_stubs(alloc: Global, source: &Module) -> Result<Module, StubFault>
    requires sound { IsSoundModule source.now }
    requires written { CanBeWritten source.now.records }
    requires symbols { length source.now.object.symbols < 2 ^ 32 }
    ensures ok { IfOk result (IsStubbed source.now) }
    ensures within { OnOk result (stubs_pass source.now ≡ None) }
    ensures fault { IfErr result (IsStubFault source.now) }
{
    let found = find_imports(alloc, &source.object)?;
    let sizes = sizes_with(sizes_of(source), found.names.len());
    if let Some(what) = passed(sizes) {
        return Err(StubFault::TooMany(what));
    }
    if found.names.is_empty() {
        Ok(copied(alloc, source)?)
    } else {
        Ok(make(alloc, source, &found)?)
    }
}
