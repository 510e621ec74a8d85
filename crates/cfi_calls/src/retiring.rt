//! First users of modules, and lists of live ones, of modules that are written by hand.

ghost use Rattle.std.specs.Prelude.{◌≡◌, All, IfOk, length};
ghost use Rattle.cfi_graph.specs.Shaped.{IsShaped};

use crate::made::jump;
use cfi_aux::Placed;
use cfi_retire::{live_list, user_of};
use std::alloc::{AllocError, Global};

// Four modules of a direct jump each, from word 16 on: to the third, to itself, to the first, and to the third.
fn jumps(alloc: Global) -> Result<Vec<Placed>, AllocError>
    ensures shaped { IfOk result (λ modules. All IsShaped modules.items) }
    ensures four { IfOk result (λ modules. length modules.items ≡ 4) }
{
    let first = jump(alloc, 16, 8)?;
    let second = jump(alloc, 17, 0)?;
    let third = jump(alloc, 18, -8)?;
    let fourth = jump(alloc, 19, -4)?;
    Ok(vec![in alloc; first, second, third, fourth]?)
}

// Whether the module of the number has this first user, where these of four are live.
fn has_user(modules: &[Placed], live: &[bool], target: u32, user: Option<u32>) -> bool
    requires shaped { All IsShaped modules.now }
    requires four { length modules.now ≡ 4 }
{
    live.len() == 4 && target < 4 && user_of(modules, live, target) == user
}

/// First users, by hand: no module is its own, and a module that is not live is none.
pub fn users(alloc: Global) -> Result<bool, AllocError> {
    let rows = [
        ([true, true, true, true], 2, Some(0)),
        ([false, true, true, true], 2, Some(3)),
        ([false, true, true, false], 2, None),
        ([true, true, true, true], 1, None),
        ([true, true, true, true], 0, Some(2)),
        ([true, true, true, true], 3, None),
    ];
    let modules = jumps(alloc)?;
    let mut agree = true;
    for (live, target, user) in rows {
        agree = agree && has_user(modules.as_slice(), &live, target, user);
    }
    Ok(agree)
}

/// The list of the live ones of four modules.
pub fn live(alloc: Global) -> Result<bool, AllocError> {
    let modules = jumps(alloc)?;
    let list = live_list(alloc, modules.as_slice(), &[true, false, true, false])?;
    Ok(list.len() == 2 && list[0].base == 16 && list[1].base == 18)
}
