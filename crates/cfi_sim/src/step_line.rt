//! The form of a line.

ghost use Rattle.std.specs.Prelude.{◌≡◌, ◌++◌, ◌+◌, [], OnOk, codes};
ghost use Rattle.cfi_sim.specs.Step.{behind, head_text, left_line, line_of};

use crate::did::put_stop;
use crate::seen::Seen;
use cfi_text::{put_dec, put_hex8};
use cfi_unit::Stop;
use std::alloc::AllocError;

// Appends what stands behind #, if something does.
fn put_behind(out: &mut Vec<u8>, did: &[u8]) -> Result<(), AllocError>
    ensures { OnOk result (out.new.items ≡ out.old.items ++ behind did.now) }
{
    if did.is_empty() {
        return Ok(());
    }
    out.extend_from_slice(b" #")?;
    out.extend_from_slice(did)
}

// Appends the guest, the number of its unit, and the unit's address.
fn put_head(out: &mut Vec<u8>, guest: u32, number: u64, address: u32) -> Result<(), AllocError>
    ensures { OnOk result (out.new.items ≡ out.old.items ++ head_text guest number address) }
{
    put_dec(out, u64::from(guest))?;
    out.push(b' ')?;
    put_dec(out, number)?;
    out.push(b' ')?;
    put_hex8(out, address)?;
    out.push(b' ')?;
    Ok(())
}

/// Appends the line of an event in a unit that has not ended, or ends with it.
#[tactic(auto, unfolding(crate::specs::Step::line_of))]
pub fn put_line(
    out: &mut Vec<u8>,
    guest: u32,
    old: &Seen,
    address: u32,
    what: &[u8],
    did: Vec<u8>,
    stop: Option<Stop>,
) -> Result<(), AllocError>
    ensures { OnOk result (out.new.items ≡ out.old.items
        ++ line_of guest old.now address what.now did.items stop) }
{
    let mut did = did;
    put_stop(&mut did, stop)?;
    put_head(out, guest, u64::from(old.units) + 1, address)?;
    out.extend_from_slice(what)?;
    put_behind(out, &did)?;
    out.push(b'\n')?;
    Ok(())
}

/// Appends the line of what the quiescent point behind a service does.
#[tactic(auto, unfolding(crate::specs::Step::left_line))]
pub fn put_left(
    out: &mut Vec<u8>,
    guest: u32,
    old: &Seen,
    what: &[u8],
    stop: Option<Stop>,
) -> Result<(), AllocError>
    ensures { OnOk result
        (out.new.items ≡ out.old.items ++ left_line guest old.now what.now stop) }
{
    let mut did = Vec::new(*out.allocator());
    put_stop(&mut did, stop)?;
    put_head(out, guest, u64::from(old.units), old.pc.saturating_sub(4))?;
    out.extend_from_slice(what)?;
    put_behind(out, &did)?;
    out.push(b'\n')?;
    Ok(())
}
