ghost use Rattle.std.specs.Prelude.{◌≡◌, IfOk, IfSome, codes, map, option_map};
ghost use Rattle.clap.specs.Words.{found_of, first_value};
ghost use Rattle.cfi_request.specs.Parse.{operands_in};
ghost use Rattle.cfi_request.specs.Split.{IsSplit, command_in, operands_of};
ghost use Rattle.cfi_request.specs.Words.{texts};

use crate::operand::are_operands;
use crate::parse::parsed;
use clap::ArgMatches;
use clap::error::ErrorKind;
use std::alloc::{AllocError, Global};

/// The words of a command line.
#[derive(Debug, Drop)]
pub struct Split<'a> {
    /// The first word.
    pub command: &'a str,
    /// The words after it.
    pub operands: Vec<&'a str>,
}

// The words that the matches have.
fn split_of<'a>(alloc: Global, matches: &ArgMatches<'a>) -> Result<Option<Split<'a>>, AllocError>
    ensures command { IfOk result (λ split.
        option_map command_in split ≡ first_value (found_of matches.now) (codes "command")) }
    ensures operands { IfOk result (λ split.
        IfSome split (λ words. operands_of words ≡ operands_in matches.now)) }
{
    let Some(command) = matches.get_str("command") else {
        return Ok(None);
    };
    let operands = match matches.get_strs("words") {
        Some(operands) => operands.to_vec(alloc)?,
        None => Vec::new(alloc),
    };
    Ok(Some(Split { command, operands }))
}

/// The first of the words, and those after it.
///
/// `words` are those after the program's name. `None` where there is no word, where one is empty, and where one begins
/// with `-`: there are no options.
pub fn split_words<'a>(alloc: Global, words: &'a [String]) -> Result<Option<Split<'a>>, AllocError>
    ensures { IfOk result (IsSplit (texts words.now)) }
{
    if !are_operands(words) {
        return Ok(None);
    }
    match parsed(alloc, words) {
        Ok(matches) => split_of(alloc, &matches),
        Err(error) => match error.kind() {
            ErrorKind::OutOfMemory => Err(AllocError),
            _ => Ok(None),
        },
    }
}
