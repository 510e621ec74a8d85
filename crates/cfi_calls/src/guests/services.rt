//! Services of guests.

use super::{put_into, step};
use rv_guest::{Act, Answer, Guest, Log, Wait};
use std::alloc::{AllocError, Global};

// Answers an open under the policy 255, with this cause, or 9 where 1,024 opens are logged.
fn answer(guest: &mut Guest, address: u32, cause: u32) {
    let _ = guest.log();
    if guest.waits() == Some(Wait::Service(4)) {
        let cause = if guest.opens() < 1_024 { cause } else { 9 };
        guest.answer(&Answer {
            address,
            cause,
            policy: 255,
            fills: &[],
        });
    }
}

// Puts a number and an argument into a7 and a0, and asks for the service. Whether it is asked for.
fn asks(guest: &mut Guest, number: u32, argument: u32) -> bool {
    put_into(guest, 17, number);
    put_into(guest, 10, argument);
    step(guest, 0x00000073) == Some(Act::Service(number))
}

/// An open of module 5 that succeeds.
pub fn open(alloc: Global) -> Result<bool, AllocError> {
    let mut guest = Guest::open(alloc, 0, 64, &[])?;
    let has_asked = asks(&mut guest, 4, 5);
    answer(&mut guest, 64, 0);
    let entry = Log::Open {
        module: 5,
        address: 64,
        policy: 255,
    };
    Ok(
        has_asked
            && (guest.argument(), guest.register(11)) == (64, 0)
            && guest.log() == [entry].as_slice()
            && guest.opens() == 1,
    )
}
