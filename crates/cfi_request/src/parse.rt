ghost use Rattle.std.specs.Prelude.{◌≡◌, ◌≢◌, [], All, IfOk, IfErr};
ghost use Rattle.clap.specs.Words.{app_of, kind_of};
ghost use Rattle.clap.specs.declared.error.kind.ErrorKind.TheVariants.{OutOfMemory};
ghost use Rattle.cfi_request.specs.Parse.{reader, HasWords};
ghost use Rattle.cfi_request.specs.Words.{IsOperand, texts};

use clap::{Arg, ArgMatches, Command, Error};
use std::alloc::{AllocError, Global};

// What reads the words: the first is the command, and all others are its operands. There are no options and no help.
fn reader<'a>(alloc: Global) -> Result<Command<'a>, AllocError>
    ensures { IfOk result (λ command. app_of command ≡ reader) }
{
    let first = Arg::new(alloc, "command").required(true);
    let others = Arg::new(alloc, "words").num_args(0..);
    Command::new(alloc, "cfi")
        .no_binary_name(true)
        .disable_help_flag(true)
        .disable_version_flag(true)
        .arg(first)?
        .arg(others)
}

/// The words as `clap` reads them. Where there is a word, nothing but want of memory is a fault.
pub fn parsed<'a>(alloc: Global, words: &'a [String]) -> Result<ArgMatches<'a>, Error>
    requires operands { All IsOperand (texts words.now) }
    ensures ok { IfOk result (HasWords (texts words.now)) }
    ensures fault { IfErr result (λ error. texts words.now ≢ [] → kind_of error ≡ OutOfMemory) }
{
    let command = reader(alloc)?;
    command.try_get_matches_from(words)
}
