//! The text and the data of a module with stubs.

ghost use Rattle.std.specs.Prelude.{◌≡◌, ◌++◌, ◌≤◌, ◌<◌, ◌^◌, ◌+◌, ◌*◌, length, OnOk, IfOk};
ghost use Rattle.elf_read.specs.Places.{joined};
ghost use Rattle.cfi_import.specs.declared.start.TheConstants.{CELL_BYTES};
ghost use Rattle.cfi_import.specs.Stubs.{stub_bytes};
ghost use Rattle.cfi_import.specs.Stubbed.{with_cells};

use crate::start::{CELL_BYTES, padding};
use std::alloc::{AllocError, Global};

// Adds the bytes of a stub.
#[tactic(auto, unfolding(crate::specs::Stubs::stub_bytes))]
fn push_stub(out: &mut Vec<u8>) -> Result<(), AllocError>
    ensures { OnOk result (out.new.items ≡ out.old.items ++ stub_bytes) }
{
    out.extend_from_slice(&[
        0xb7, 0x02, 0x00, 0x00, 0x83, 0xa2, 0x02, 0x00, 0x67, 0x80, 0x02, 0x00,
    ])?;
    Ok(())
}

/// The text with so many stubs behind it.
pub fn with_texts(alloc: Global, text: &[u8], count: u32) -> Result<Vec<u8>, AllocError>
    ensures { IfOk result (λ made. made.items ≡ text.now ++ joined (λ place. stub_bytes) count) }
{
    let mut made = Vec::from_slice(alloc, text)?;
    for _place in 0..count {
        push_stub(&mut made)?;
    }
    Ok(made)
}

/// The data with so many cells behind it.
pub fn with_cells(alloc: Global, static_data: &[u8], count: u32) -> Result<Vec<u8>, AllocError>
    requires { length static_data.now + 4 + CELL_BYTES * count < 2 ^ 32 }
    ensures { IfOk result (λ made. made.items ≡ with_cells count static_data.now) }
{
    let mut made = Vec::from_slice(alloc, static_data)?;
    let whole = made.len() + padding(made.len());
    made.resize(whole, 0)?;
    made.resize(whole + (CELL_BYTES * count) as usize, 0)?;
    Ok(made)
}
