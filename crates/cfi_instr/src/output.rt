//! The instrumented module.

ghost use Rattle.std.specs.Prelude.{◌≡◌, ◌*◌, ◌<◌, ◌≤◌, ◌^◌, length, All, IfOk, IfErr};
ghost use Rattle.std.specs.List.{flat_map};
ghost use Rattle.cfi_type_table.specs.Spelling.{word};
ghost use Rattle.cfi_unit.specs.Unit.{words_of};
ghost use Rattle.cfi_aux.specs.Records.{CanBeWritten};
ghost use Rattle.cfi_instr.specs.Words.{count_of};
ghost use Rattle.cfi_instr.specs.Output.{AreMoved, IsObject, IsInstrumented, IsFirstInstrFault};
ghost use Rattle.cfi_instr.specs.inner.Arrangement.{units_by, AllSpellBy, IsArrangementOf};

use crate::arrangement::Arrangement;
use crate::check::read_items;
use crate::fault::InstrFault;
use crate::reach::least_long;
use cfi_aux::{Module, Records, write_records};
use cfi_type_table::write_types;
use cfi_values::{Bytes, Items};
use elf_read::{Object, Relocs, Symbols};
use rv_words::bytes_of;
use std::alloc::{AllocError, Global};

// The bytes of the text.
fn text_of(alloc: Global, arrangement: &Arrangement) -> Result<Vec<u8>, AllocError>
    requires count { 4 * count_of arrangement.now.source < 2 ^ 32 }
    requires fits { AllSpellBy arrangement.now }
    ensures { IfOk result (λ text.
        text.items ≡ flat_map word (flat_map words_of (units_by arrangement.now))) }
{
    bytes_of(alloc, &arrangement.words(alloc)?)
}

// The records, moved.
fn records_of(
    alloc: Global,
    arrangement: &Arrangement,
    unplaced: &Module,
) -> Result<Records, AllocError>
    requires { IsArrangementOf unplaced.now arrangement.now }
    ensures { IfOk result (AreMoved unplaced.now arrangement.now.offsets) }
{
    let records = &unplaced.records;
    let functions = arrangement.moved_functions(alloc, records.functions.as_slice())?;
    let branches = arrangement.moved_kinds(alloc, records.branches.as_slice())?;
    Ok(Records {
        functions: Items::from_vec(functions),
        branches: Items::from_vec(branches),
    })
}

// The object, with these records.
fn object_of(
    alloc: Global,
    arrangement: &Arrangement,
    unplaced: &Module,
    records: &Records,
) -> Result<Object, AllocError>
    requires count { 4 * count_of arrangement.now.source < 2 ^ 32 }
    requires same { IsArrangementOf unplaced.now arrangement.now }
    requires fits { AllSpellBy arrangement.now }
    requires nodes { length unplaced.now.types < 2 ^ 32 }
    requires fields { All (λ x. length x.fields < 2 ^ 32) unplaced.now.types }
    requires written { CanBeWritten records.now }
    ensures { let a = arrangement.now in
        IfOk result (IsObject unplaced.now a.long a.offsets records.now) }
{
    let object = &unplaced.object;
    let text = text_of(alloc, arrangement)?;
    let static_data = Vec::from_slice(alloc, object.static_data.as_slice())?;
    let symbols = arrangement.moved_symbols(alloc)?;
    let relocs = arrangement.moved_relocs(alloc, object.relocs.as_slice())?;
    Ok(Object {
        text: Bytes::from_vec(text),
        static_data: Bytes::from_vec(static_data),
        symbols: Symbols::from_vec(symbols),
        relocs: Relocs::from_vec(relocs),
        types: Some(Bytes::from_vec(write_types(alloc, &unplaced.types)?)),
        records: Some(Bytes::from_vec(write_records(alloc, records)?)),
    })
}

/// The module, instrumented: its loads and stores masked, its indirect jumps checked.
///
/// The output's units are the items of the input in order. A branch that does not reach its target becomes the inverse
/// branch over a jump; the long ones are the least set. The faults come in the order of `InstrFault`. For modules
/// whose parts can be counted in 32 bits. MCFI, instrumentation; RISC-V ELF psABI, "Relocations".
pub fn instrument(alloc: Global, unplaced: &Module) -> Result<Module, InstrFault>
    requires nodes { length unplaced.now.types < 2 ^ 32 }
    requires fields { All (λ x. length x.fields < 2 ^ 32) unplaced.now.types }
    requires written { CanBeWritten unplaced.now.records }
    requires text { length unplaced.now.object.text < 2 ^ 32 }
    requires relocs { length unplaced.now.object.relocs ≤ 2 ^ 32 }
    ensures ok { IfOk result (IsInstrumented unplaced.now) }
    ensures fault { IfErr result (IsFirstInstrFault unplaced.now) }
{
    let source = read_items(alloc, unplaced)?;
    let symbols = unplaced.object.symbols.as_slice();
    let (long, offsets) = least_long(alloc, &source, symbols)?;
    let arrangement = Arrangement {
        source: &source,
        symbols,
        long: &long,
        offsets: &offsets,
    };
    let records = records_of(alloc, &arrangement, unplaced)?;
    let object = object_of(alloc, &arrangement, unplaced, &records)?;
    let types = unplaced.types.copied(alloc)?;
    Ok(Module {
        object,
        types,
        records,
    })
}
