//! A guest that runs over what its pass loads.

ghost use Rattle.std.specs.Prelude.{◌≡◌, ◌==◌, ◌&&◌, not, nat_le, false};
ghost use Rattle.cfi_model.specs.Raw.{reg};
ghost use Rattle.cfi_runner.specs.Run.{CanRunOn, HasRunOn};
ghost use Rattle.cfi_word.specs.declared.map.TheConstants.{BARY};

use crate::pause::Pause;
use cfi_tables::{Pass, TableName, Tables};
use cfi_word::map::BARY;
use rv_guest::{Act, Guest};
use std::thread::yield_now;

// Whether the load of a slot's word begins a try anew: in a check x30 is 0 before its first try, and before no other.
#[inline(always)]
fn is_repeat(guest: &Guest, address: u32) -> bool
    ensures { result ≡ (nat_le BARY address && not (reg guest.now 30 == 0)) }
{
    address >= BARY && guest.register(30) != 0
}

/// Runs a guest over the words that its pass loads, until it asks for a service or stops, and says which.
///
/// The guest is not parked, has not stopped, waits for nothing, has at most `fuel` instructions behind it, has logged
/// no policy above that of the latest epoch which the pass has seen in force, and stands at a start of an image that it
/// has seen. It takes no memory, and waits for no one.
#[inline(never)]
pub fn run_until<N: TableName>(
    guest: &mut Guest,
    tables: &Tables<N>,
    pass: &mut Pass<N>,
    fuel: u32,
) -> Pause
    requires can { CanRunOn N.key fuel pass.old guest.old }
    requires outside { pass.old.parked ≡ false }
    ensures { HasRunOn N.key fuel pass.old pass.new guest.old guest.new result }
{
    // Out of line: inside a larger function this loop would keep what it works with on the stack.
    for _ in guest.steps()..fuel {
        let word = tables.fetch(pass, guest.pc() / 4);
        match guest.begin(word) {
            Act::Done => {}
            Act::Need(address) => {
                // The words of the last try were of two versions, so an update is under way: its thread may go on first.
                if is_repeat(guest, address) {
                    yield_now();
                }
                let loaded = tables.load(pass, address);
                guest.finish(loaded);
            }
            Act::Service(number) => return Pause::Service(number),
            Act::Halt(target) => return Pause::Halt(target),
            Act::Align(address) => return Pause::Align(address),
        }
    }
    let _ = guest.spend(fuel);
    Pause::Fuel
}
