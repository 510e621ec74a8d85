//! Simulations as texts.

ghost use Rattle.std.specs.Prelude.{◌≡◌, ◌++◌, OnOk, IfOk};
ghost use Rattle.cfi_text.specs.Decimal.{dec_text};
ghost use Rattle.cfi_sim.specs.Text.{phase_text, sim_text};

use crate::report::SimReport;
use cfi_model::Phase;
use cfi_report::write_report;
use cfi_text::put_dec;
use std::alloc::{AllocError, Global};

/// The text of a simulation.
pub fn write_sim(alloc: Global, sim: &SimReport) -> Result<Vec<u8>, AllocError>
    ensures ok { IfOk result (λ bytes. bytes.items ≡ sim_text sim.now) }
{
    let report = write_report(alloc, &sim.report)?;
    let mut out = Vec::new(alloc);
    out.extend_from_slice(b"sim 1\nupdater ")?;
    put_phase(&mut out, sim.phase)?;
    out.push(b'\n')?;
    out.extend_from_slice(report.as_slice())?;
    Ok(out)
}

fn put_phase(out: &mut Vec<u8>, phase: Phase) -> Result<(), AllocError>
    ensures { OnOk result (out.new.items ≡ out.old.items ++ phase_text phase) }
{
    match phase {
        Phase::Idle => out.extend_from_slice(b"idle"),
        Phase::Testing(guest) => put_next(out, b"testing ", guest),
        Phase::Code(word) => put_next(out, b"code ", word),
        Phase::Tary(word) => put_next(out, b"tary ", word),
        Phase::Epoch => out.extend_from_slice(b"epoch"),
        Phase::Bary(slot) => put_next(out, b"bary ", slot),
    }
}

// The name of a phase and the number of its next word.
fn put_next(out: &mut Vec<u8>, name: &[u8], number: u32) -> Result<(), AllocError>
    ensures { OnOk result (out.new.items ≡ out.old.items ++ name.now ++ dec_text number) }
{
    out.extend_from_slice(name)?;
    put_dec(out, u64::from(number))
}
