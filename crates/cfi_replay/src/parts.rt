//! The replay of a guest's part.

ghost use Rattle.std.specs.Prelude.{◌≡◌, IfNone, IfOk, IfSome};
ghost use Rattle.cfi_replay.specs.Setting.{members_in, CanReplay, IsSetting, ComesIn, ComesNowhere};
ghost use Rattle.cfi_model.specs.Plain.{plain_opened};
ghost use Rattle.cfi_model.specs.State.{State};
ghost use Rattle.cfi_replay.specs.inner.Follows.{HasReplayed, IsStart};
ghost use Rattle.cfi_valid.specs.Loaded.{start_fills, Filled};

use crate::cursor::Cursor;
use crate::setting::Setting;
use cfi_ledger::entry_at;
use cfi_model::Plain;
use cfi_report::GuestPart;
use cfi_unit::Log;
use std::alloc::{AllocError, Global};

// The machine of a guest at its start, with the data of the start modules and then the cells at policy 0.
fn opened(
    alloc: Global,
    setting: &Setting<'_>,
    number: u32,
    address: u32,
) -> Result<Plain, AllocError>
    requires { IsSetting setting.now }
    ensures { IfOk result (λ m. m ≡ plain_opened number address
        (start_fills Filled (members_in setting.now))) }
{
    let mut machine = Plain::open(alloc, number, address, setting.start_data())?;
    machine.fill(setting.cells_at(0));
    Ok(machine)
}

// The machine after so many units over the log. `None` where it does not come so far.
fn follow(setting: &Setting<'_>, log: &[Log], start: Plain, units: u32) -> Option<Plain>
    requires setting { IsSetting setting.now }
    requires can { CanReplay setting.now log.now }
    requires starts { IsStart start }
    ensures some { IfSome result (λ m. HasReplayed setting.now log.now units start.state m.state) }
    ensures none { IfNone result ((last : State) →
        ¬ HasReplayed setting.now log.now units start.state last) }
{
    let mut machine = start;
    let mut cursor = Cursor::open(log);
    for _turn in 0..units {
        if !setting.go(log, &mut machine, &mut cursor) {
            return None;
        }
    }
    Some(machine)
}

/// The machine after exactly as many units as the part of a guest says, from its entry on and over exactly its log.
///
/// `None` exactly where no machine comes so far: one that has stopped, or does not log what the part says, runs no
/// further unit. The number of a module that was opened is not compared: what the machine has logged tells it.
pub fn replayed(
    alloc: Global,
    setting: &Setting<'_>,
    part: &GuestPart,
) -> Result<Option<Plain>, AllocError>
    requires setting { IsSetting setting.now }
    requires can { CanReplay setting.now part.now.log }
    ensures some { IfOk result (λ found. IfSome found (λ m. ComesIn setting.now part.now m.state)) }
    ensures none { IfOk result (λ found. IfNone found (ComesNowhere setting.now part.now)) }
{
    let starts = setting.start_modules();
    let Some(address) = entry_at(setting.plan, starts, part.entry.as_str()) else {
        return Ok(None);
    };
    let machine = opened(alloc, setting, part.number, address)?;
    Ok(follow(setting, part.log.as_slice(), machine, part.units))
}
