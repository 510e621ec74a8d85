//! What was found of modules that are not loaded.

ghost use Rattle.std.specs.Prelude.{◌≡◌, None, Some, IfOk, IfSome, replicate};
ghost use Rattle.cfi_place.specs.Value.{name_at};
ghost use Rattle.cfi_place.specs.declared.fault.PlaceFault.TheVariants.{Undefined};
ghost use Rattle.cfi_modules.specs.declared.fault.JoinFault.TheVariants.{Place};
ghost use Rattle.cfi_ledger.specs.Finding.{fault_by};

use cfi_aux::Module;
use cfi_modules::JoinFault;
use cfi_place::PlaceFault;
use cfi_verify::VerifyFault;
use elf_read::{Name, Symbol};
use rv_reloc::RelocFault;
use std::alloc::{AllocError, Global};

/// Whether a module joins others, or why not, without memory of its own.
#[derive(Clone, Copy)]
pub enum Outcome {
    /// It joins.
    Joins,
    /// A relocation names the symbol of this number, from 0, which is defined nowhere.
    Undefined(usize),
    /// Its text does not fit into the code.
    CodeFull,
    /// Its data would end past `DATA_END`.
    DataFull,
    /// The relocation of this number, from 0, can not be applied.
    Reloc(u32, RelocFault),
    /// It does not verify.
    Verify(VerifyFault),
}

/// What was found of a module under a policy.
#[derive(Clone, Copy)]
pub struct Finding {
    pub policy: u32,
    pub outcome: Outcome,
}

/// What is known of a module under the policy in force, without trying it.
#[derive(Drop)]
pub enum Known {
    /// Nothing that tells what comes of its load.
    Nothing,
    /// It does not join, for this fault.
    Unjoined(JoinFault),
    /// It joins, and no epoch is left.
    Spent,
}

/// Nothing of so many modules.
pub(crate) fn nothing_found(alloc: Global, count: usize) -> Result<Vec<Option<Finding>>, AllocError>
    ensures { IfOk result (λ found. found.items ≡ replicate count None) }
{
    let mut found = Vec::new(alloc);
    found.resize(count, None)?;
    Ok(found)
}

// The first symbol of this name.
fn symbol_of(symbols: &[Symbol], name: &Name) -> Option<usize>
    ensures { IfSome result (λ at. name_at symbols.now (Some at) ≡ name.now) }
{
    for at in 0..symbols.len() {
        if symbols[at].name.as_str() == name.as_str() {
            return Some(at);
        }
    }
    None
}

// The outcome of a fault of placing.
fn place_outcome(unplaced: &Module, fault: &PlaceFault) -> Option<Outcome>
    ensures { IfSome result (λ outcome. fault_by unplaced.now outcome ≡ Some (Place fault.now)) }
{
    match fault {
        PlaceFault::Undefined(name) => match symbol_of(unplaced.object.symbols.as_slice(), name) {
            Some(at) => Some(Outcome::Undefined(at)),
            None => None,
        },
        PlaceFault::CodeFull => Some(Outcome::CodeFull),
        PlaceFault::DataFull => Some(Outcome::DataFull),
        PlaceFault::Reloc(number, fault) => Some(Outcome::Reloc(*number, *fault)),
        PlaceFault::Memory => None,
    }
}

/// The outcome of a fault; None for want of memory, which is none of the module's.
pub(crate) fn outcome_of(unplaced: &Module, fault: &JoinFault) -> Option<Outcome>
    ensures { IfSome result (λ outcome. fault_by unplaced.now outcome ≡ Some fault.now) }
{
    match fault {
        JoinFault::Place(fault) => place_outcome(unplaced, fault),
        JoinFault::Verify(fault) => Some(Outcome::Verify(*fault)),
        JoinFault::Memory => None,
    }
}

// The fault of a symbol that is defined nowhere.
fn undefined(alloc: Global, symbols: &[Symbol], at: usize) -> Result<JoinFault, AllocError>
    ensures { IfOk result (λ fault. fault ≡ Place (Undefined (name_at symbols.now (Some at)))) }
{
    let name = match symbols.get(at) {
        Some(symbol) => String::from_str(alloc, symbol.name.as_str())?,
        None => String::new(alloc),
    };
    Ok(JoinFault::Place(PlaceFault::Undefined(Name::from_string(name))))
}

/// The fault of an outcome, as it was found; None where the module joins.
pub(crate) fn fault_by(
    alloc: Global,
    unplaced: &Module,
    outcome: Outcome,
) -> Result<Option<JoinFault>, AllocError>
    ensures { IfOk result (λ fault. fault ≡ fault_by unplaced.now outcome) }
{
    Ok(match outcome {
        Outcome::Joins => None,
        Outcome::Undefined(at) => Some(undefined(alloc, unplaced.object.symbols.as_slice(), at)?),
        Outcome::CodeFull => Some(JoinFault::Place(PlaceFault::CodeFull)),
        Outcome::DataFull => Some(JoinFault::Place(PlaceFault::DataFull)),
        Outcome::Reloc(number, fault) => Some(JoinFault::Place(PlaceFault::Reloc(number, fault))),
        Outcome::Verify(fault) => Some(JoinFault::Verify(fault)),
    })
}
