//! Services of the policy machine.

use super::{answer, goes, turn};
use cfi_model::{Log, Plain, PlainStep};
use std::alloc::{AllocError, Global};

// Asks for an open of module 5. Whether the machine waits for it then.
fn asks(m: &mut Plain) -> bool {
    let code = [0x00400893, 0x00500513, 0x00000073];
    goes(m, &code, 2)
        && turn(m, &code, &[]) == Some(PlainStep::Asks(5))
        && m.pc() == 8
        && m.units() == 2
}

// Whether an open of module 5 has been answered with address 64.
fn is_opened(m: &Plain) -> bool {
    let entry = Log::Open {
        module: 5,
        address: 64,
        policy: 255,
    };
    m.register(10) == 64
        && m.register(11) == 0
        && (m.pc(), m.units(), m.steps()) == (12, 3, 3)
        && m.log() == [entry].as_slice()
}

/// An open of module 5 that succeeds.
pub fn open(alloc: Global) -> Result<bool, AllocError> {
    let mut m = Plain::open(alloc, 0, 0, &[])?;
    let has_asked = asks(&mut m);
    answer(&mut m, 64, 0);
    Ok(has_asked && is_opened(&m))
}
