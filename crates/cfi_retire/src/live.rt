//! The modules that are live.

ghost use Rattle.std.specs.Prelude.{◌≡◌, length, IfOk};
ghost use Rattle.cfi_graph.specs.Live.{live_of};

use cfi_aux::{Placed, copied_placed};
use std::alloc::{AllocError, Global};

/// The live ones of the modules, in order, in memory of their own.
///
/// `live` tells by number, from 0, which are live.
pub fn live_list(
    alloc: Global,
    modules: &[Placed],
    live: &[bool],
) -> Result<Vec<Placed>, AllocError>
    requires { length live.now ≡ length modules.now }
    ensures { IfOk result (λ list. list.items ≡ live_of modules.now live.now) }
{
    let mut list = Vec::new(alloc);
    for (number, placed) in modules.iter().enumerate() {
        if live[number] {
            list.push(copied_placed(alloc, placed)?)?;
        }
    }
    Ok(list)
}
