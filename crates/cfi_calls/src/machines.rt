//! The policy machine, unit by unit, by the manual and MCFI.

pub mod checks;
pub mod services;

use cfi_model::{Answer, Plain, PlainStep};
use cfi_unit::next_unit;
use cfi_word::Edge;

// Runs the unit at pc, where one can be run, under the policy 255.
#[tactic(auto, using(crate::proofs::RunLemmas::can_run))]
fn turn(m: &mut Plain, code: &[u32], allowed: &[Edge]) -> Option<PlainStep> {
    let pc = m.pc();
    if m.stop().is_some() || m.waits() || pc % 4 != 0 || m.units() == u32::MAX {
        return None;
    }
    if (pc / 4) as usize > code.len() {
        return None;
    }
    let (_unit, _words) = next_unit(code, pc / 4)?;
    let _ = m.log();
    Some(m.unit(code, 255, allowed))
}

// Runs so many units. Whether each goes on.
fn goes(m: &mut Plain, code: &[u32], units: u32) -> bool {
    let mut went = true;
    for _ in 0..units {
        went = went && turn(m, code, &[]) == Some(PlainStep::Went);
    }
    went
}

// Answers an open that the guest waits for, where one may be answered, with this cause and under the policy 255.
fn answer(m: &mut Plain, address: u32, cause: u32) {
    if m.waits() {
        let _ = m.log();
        m.answer(&Answer {
            address,
            cause,
            policy: 255,
            fills: &[],
        });
    }
}
