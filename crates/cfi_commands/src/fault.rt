//! Why a command makes nothing of its files.

ghost use Rattle.std.specs.Prelude.{◌≡◌};
ghost use Rattle.cfi_commands.specs.declared.fault.CommandFault.TheVariants.{Memory};

use crate::refusal::Refusal;
use cfi_link::LinkFault;
use std::alloc::{AllocError, AllocFailed};

/// Why a command makes nothing of its files: the first fault.
#[derive(Drop)]
pub enum CommandFault {
    /// The file of this number, from 0, is refused.
    File(usize, Refusal),
    /// Each file is a module, and the modules are not linked.
    Together(LinkFault),
    /// There is no memory for what the command makes.
    Memory,
}

impl From<AllocError> for CommandFault {
    ghost from_gives = { λ _ e. e ≡ Memory };

    fn from(_error: AllocError) -> CommandFault {
        CommandFault::Memory
    }
}

impl<T: Drop> From<AllocFailed<T>> for CommandFault {
    ghost from_gives = { λ _ e. e ≡ Memory };

    fn from(_error: AllocFailed<T>) -> CommandFault {
        CommandFault::Memory
    }
}
