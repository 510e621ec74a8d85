ghost use Rattle.std.specs.Prelude.{◌≡◌, ◌++◌, OnOk, OnErr, string_bytes};
ghost use Rattle.cfi_commands.specs.Refusal.{refusal_text};

use crate::asm::put_asm;
use crate::aux::put_aux;
use crate::bare::put_bare;
use crate::elf::put_elf;
use crate::import::put_import;
use crate::instr::put_instr;
use crate::judge::{ReportPart, put_judge};
use crate::link::put_link;
use crate::place::put_place;
use crate::plan::put_plan;
use crate::verify::put_verify_fault;
use cfi_aux::AuxFault;
use cfi_bare::BareFault;
use cfi_import::StubFault;
use cfi_instr::InstrFault;
use cfi_link::LinkFault;
use cfi_place::PlaceFault;
use cfi_plan::PlanFault;
use cfi_verify::VerifyFault;
use elf_read::ElfFault;
use rv_asm::AsmFault;
use std::alloc::AllocError;

/// Why a file is refused: a layer, and its first fault.
#[derive(Drop)]
pub enum Refusal {
    /// As a bare file.
    Bare(BareFault),
    /// As an object.
    Elf(ElfFault),
    /// As a module.
    Aux(AuxFault),
    /// As a module to be instrumented.
    Instr(InstrFault),
    /// As a source.
    Asm(AsmFault),
    /// As modules to be linked.
    Link(LinkFault),
    /// As a module to be given stubs.
    Import(StubFault),
    /// As a plan.
    Plan(PlanFault),
    /// As a module to be placed.
    Place(PlaceFault),
    /// As a placed module.
    Verify(VerifyFault),
    /// As a plan, of which the guest of this number enters no function.
    Entry(u32),
    /// As a schedule, of which the line of this number has no event.
    Sim(u32),
    /// As a report, of which the line of this number is the first that is none, or is missing.
    Report(u32),
    /// As a report that is valid: this part of it is not.
    Judge(ReportPart),
}

// Appends the words of a refusal, and where no memory is left perhaps not all.
fn put_words(text: &mut String, refusal: &Refusal) -> Result<(), AllocError>
    ensures { OnOk result
        (string_bytes text.new ≡ string_bytes text.old ++ refusal_text refusal.now) }
{
    match refusal {
        Refusal::Bare(fault) => {
            text.push_str("bare ")?;
            put_bare(text, *fault)
        }
        Refusal::Elf(fault) => {
            text.push_str("elf ")?;
            put_elf(text, *fault)
        }
        Refusal::Aux(fault) => put_aux(text, *fault),
        Refusal::Instr(fault) => {
            text.push_str("instr ")?;
            put_instr(text, *fault)
        }
        Refusal::Asm(fault) => {
            text.push_str("asm ")?;
            put_asm(text, *fault)
        }
        Refusal::Link(fault) => {
            text.push_str("link ")?;
            put_link(text, fault)
        }
        Refusal::Import(fault) => {
            text.push_str("import ")?;
            put_import(text, *fault)
        }
        Refusal::Plan(fault) => {
            text.push_str("plan ")?;
            put_plan(text, *fault)
        }
        Refusal::Place(fault) => {
            text.push_str("place ")?;
            put_place(text, fault)
        }
        Refusal::Verify(fault) => put_verify_fault(text, *fault),
        Refusal::Entry(guest) => write!(text, "entry NoEntry {guest}"),
        Refusal::Sim(line) => write!(text, "sim BadEvent {line}"),
        Refusal::Report(line) => write!(text, "report Syntax {line}"),
        Refusal::Judge(part) => {
            text.push_str("judge ")?;
            put_judge(text, *part)
        }
    }
}

/// Appends the words of a refusal: the layer's name, the fault's name, and the fault's fields.
///
/// Single spaces stand between the words, numbers are decimal, and places of code are in bytes. Want of memory is no
/// refusal: the fault of that name is written for completeness alone. Where no memory is left, nothing is appended.
pub fn put_refusal(text: &mut String, refusal: &Refusal) -> Result<(), AllocError>
    ensures ok { OnOk result
        (string_bytes text.new ≡ string_bytes text.old ++ refusal_text refusal.now) }
    ensures err { OnErr result (string_bytes text.new ≡ string_bytes text.old) }
{
    let mut words = String::new(*text.allocator());
    put_words(&mut words, refusal)?;
    text.push_str(words.as_str())
}
