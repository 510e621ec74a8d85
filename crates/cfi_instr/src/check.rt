//! Which modules can be instrumented.

ghost use Rattle.std.specs.Prelude.{◌≡◌, ◌*◌, ◌<◌, ◌≤◌, ◌^◌, length, IfOk, OnOk, IfErr};
ghost use Rattle.cfi_aux.specs.declared.modules.Module.{Module};
ghost use Rattle.cfi_instr.specs.Words.{AreInsnsInRange, read_words, count_of};
ghost use Rattle.cfi_instr.specs.Fault.{input_by, input_of, HasGoodWords, HasGoodShape, HasGoodJumps, IsInstrumentable, IsFirstFlaw};

use crate::fault::InstrFault;
use crate::source::{Source, read_source};
use cfi_aux::Module;
use std::alloc::Global;

// The words are instructions that a module may have.
fn check_words(source: &Source) -> Result<(), InstrFault>
    requires { 4 * count_of source.now < 2 ^ 32 }
    ensures ok { OnOk result (HasGoodWords source.now) }
    ensures fault { IfErr result (λ fault. (m : Module)
        → IsFirstFlaw (input_by source.now m) fault) }
{
    if let Some(w) = source.first_illegal() {
        return Err(InstrFault::Illegal(4 * w as u32));
    }
    if let Some(w) = source.first_reserved() {
        return Err(InstrFault::Reserved(4 * w as u32));
    }
    if let Some(w) = source.first_trap() {
        return Err(InstrFault::Trap(4 * w as u32));
    }
    if let Some(w) = source.first_bad_link() {
        return Err(InstrFault::BadLink(4 * w as u32));
    }
    Ok(())
}

// The relocations are well placed, and the functions well formed.
fn check_shape(alloc: Global, source: &Source, unplaced: &Module) -> Result<(), InstrFault>
    requires count { 4 * count_of source.now < 2 ^ 32 }
    requires legal { HasGoodWords source.now }
    requires relocs { length unplaced.now.object.relocs ≤ 2 ^ 32 }
    requires functions { length unplaced.now.records.functions < 2 ^ 32 }
    ensures ok { OnOk result (HasGoodShape (input_by source.now unplaced.now)) }
    ensures fault { IfErr result (IsFirstFlaw (input_by source.now unplaced.now)) }
{
    let symbols = unplaced.object.symbols.as_slice();
    let functions = unplaced.records.functions.as_slice();
    let relocs = unplaced.object.relocs.as_slice();
    if let Some(k) = source.first_misplaced(alloc, symbols, functions, relocs)? {
        return Err(InstrFault::BadReloc(k as u32));
    }
    if let Some(k) = source.first_malformed(functions) {
        return Err(InstrFault::Function(k as u32));
    }
    Ok(())
}

// The direct jumps lead where they may, and the indirect ones have their records.
fn check_jumps(source: &Source, unplaced: &Module) -> Result<(), InstrFault>
    requires count { 4 * count_of source.now < 2 ^ 32 }
    requires shaped { HasGoodShape (input_by source.now unplaced.now) }
    ensures ok { OnOk result (HasGoodJumps (input_by source.now unplaced.now)) }
    ensures fault { IfErr result (IsFirstFlaw (input_by source.now unplaced.now)) }
{
    let symbols = unplaced.object.symbols.as_slice();
    let functions = unplaced.records.functions.as_slice();
    if let Some(w) = source.first_stray(symbols, functions) {
        return Err(InstrFault::Stray(4 * w as u32));
    }
    if let Some(w) = source.first_unkind(unplaced.records.branches.as_slice()) {
        return Err(InstrFault::NoKind(4 * w as u32));
    }
    Ok(())
}

// The switches lead where they may, and no function falls through.
fn check_ends(source: &Source, unplaced: &Module) -> Result<(), InstrFault>
    requires count { 4 * count_of source.now < 2 ^ 32 }
    requires functions { length unplaced.now.records.functions < 2 ^ 32 }
    requires linked { HasGoodJumps (input_by source.now unplaced.now) }
    ensures ok { OnOk result (IsInstrumentable (input_by source.now unplaced.now)) }
    ensures fault { IfErr result (IsFirstFlaw (input_by source.now unplaced.now)) }
{
    let functions = unplaced.records.functions.as_slice();
    let branches = unplaced.records.branches.as_slice();
    if let Some(k) = source.first_bad_switch(functions, branches) {
        return Err(InstrFault::Switch(k as u32));
    }
    if let Some(k) = source.first_falling(functions) {
        return Err(InstrFault::FallsThrough(k as u32));
    }
    Ok(())
}

// No row has a fault, in the words that are read of a module.
fn check(alloc: Global, source: &Source, unplaced: &Module) -> Result<(), InstrFault>
    requires count { 4 * count_of source.now < 2 ^ 32 }
    requires relocs { length unplaced.now.object.relocs ≤ 2 ^ 32 }
    requires functions { length unplaced.now.records.functions < 2 ^ 32 }
    ensures ok { OnOk result (IsInstrumentable (input_by source.now unplaced.now)) }
    ensures fault { IfErr result (IsFirstFlaw (input_by source.now unplaced.now)) }
{
    check_words(source)?;
    check_shape(alloc, source, unplaced)?;
    check_jumps(source, unplaced)?;
    check_ends(source, unplaced)
}

/// What is read of a module's text, where the module can be instrumented, but for the length of the output.
///
/// The first fault else, in the order of `InstrFault`, and for one variant the least place; `TooLong` is none here.
/// RISC-V Unprivileged ISA 20191213, 2; RISC-V ELF psABI, "Relocations"; MCFI, instrumentation.
pub fn read_items(alloc: Global, unplaced: &Module) -> Result<Source, InstrFault>
    requires text { length unplaced.now.object.text < 2 ^ 32 }
    requires relocs { length unplaced.now.object.relocs ≤ 2 ^ 32 }
    requires functions { length unplaced.now.records.functions < 2 ^ 32 }
    ensures ok { IfOk result (λ source. source ≡ read_words unplaced.now.object) }
    ensures count { IfOk result (λ source. 4 * count_of source < 2 ^ 32) }
    ensures range { IfOk result (λ source. AreInsnsInRange source.insns) }
    ensures sound { OnOk result (IsInstrumentable (input_of unplaced.now)) }
    ensures fault { IfErr result (IsFirstFlaw (input_of unplaced.now)) }
{
    let source = read_source(alloc, &unplaced.object)?;
    check(alloc, &source, unplaced)?;
    Ok(source)
}
