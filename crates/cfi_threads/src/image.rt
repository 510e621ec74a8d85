//! The image over which guests run.

ghost use Rattle.std.specs.Prelude.{IfOk};
ghost use Rattle.cfi_model.specs.Closed.{IsClosed};
ghost use Rattle.cfi_threads.specs.Starts.{StartAll};

use cfi_values::Numbers;
use cfi_word::{FIELD_MAX, Image, Layout};
use std::alloc::{AllocError, Global};

// A masked `lw x6,0(x10)`; `lui x5,0`, `addi x5,x5,172`, a checked `jalr x1,0(x5)` at slot 0, a quiet, an exit and
// `j .`; then, at address 172, a checked `jalr x0,0(x1)` at slot 1. By the tables of the RISC-V Unprivileged ISA
// 20191213.
const CALL: [u32; 41] = [
    0x00050f93, 0x00cf9f93, 0x00cfdf93, 0x40000f37, 0x01efefb3, 0x000fa303, 0x000002b7, 0x0ac28293,
    0x00028f93, 0x012fdf13, 0x020f1463, 0x20000e37, 0x000e2e83, 0x10000f37, 0x01ff0f33, 0x000f2f03,
    0x01ee8a63, 0x01df4f33, 0x010f1f13, 0xfe0f10e3, 0x00100073, 0x000f80e7, 0x00300893, 0x00000073,
    0x00100893, 0x00000073, 0x0000006f, 0x00008f93, 0x012fdf13, 0x020f1463, 0x20000e37, 0x004e2e83,
    0x10000f37, 0x01ff0f33, 0x000f2f03, 0x01ee8a63, 0x01df4f33, 0x010f1f13, 0xfe0f10e3, 0x00100073,
    0x000f8067,
];

/// The image of these words: the call may go to address 172, and the return to the address after the call.
pub fn call_image(alloc: Global, layout: &Layout) -> Result<Image, AllocError>
    ensures { IfOk result (λ image. IsClosed layout.now image × StartAll image) }
{
    let code_words = layout.code_words() as usize;
    let mut tary = vec![in alloc; 0; code_words]?;
    tary[38] = 2;
    tary[43] = 1;
    let mut bary = vec![in alloc; FIELD_MAX; layout.slots() as usize]?;
    bary[0] = 1;
    bary[1] = 2;
    let mut code = vec![in alloc; 0; 16]?;
    code.extend_from_slice(&CALL)?;
    let rest = vec![in alloc; 0; code_words - 57]?;
    code.extend_from_slice(rest.as_slice())?;
    Ok(Image {
        tary: Numbers::from_vec(tary),
        bary: Numbers::from_vec(bary),
        code: Numbers::from_vec(code),
    })
}
