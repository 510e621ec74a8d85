//! What is asked of the program, and what it delivers: its words, the files that it reads, and where its output goes.
//!
//! Stands on `clap`, `cfi_io`, `cfi_plan`, `cfi_gen`, `cfi_text`, `cfi_values` and `cfi_word`; `cfi_top` calls it.
//! Proved: words are split, by `clap`, exactly where there is one, none is empty and none begins with `-`, and are read
//! as the one command that they are, or as none; files are read in order up to the first that is not read, with its
//! cause; an output is delivered whole or in part, and the status says which. Only tested, by the cases of `cfi_cases`:
//! that ample memory is enough. Open: nothing.
#![tactic(auto)]

mod command;
mod delivery;
mod drawing;
mod names;
mod operand;
mod output;
mod parse;
mod reading;
mod split;

pub use command::{Command, command_of};
pub use delivery::deliver;
pub use names::{begins_as_plan, text_of};
pub use output::{
    DONE, MEMORY, NO_FILE, Output, READ_FAULT, REFUSED, USAGE, WRITE_FAULT, line_of, unread_output,
    usage_output,
};
pub use reading::{Cause, Unread, only, read_files};
pub use split::{Split, split_words};
