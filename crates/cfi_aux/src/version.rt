//! The versions of records, which nodes the records of each may name, and which branches it has.

ghost use Rattle.std.specs.Prelude.{◌≡◌};
ghost use Rattle.std.specs.List.{list_any};
ghost use Rattle.cfi_aux.specs.Version.{version_word, version_of, is_func, is_type, last_kind, is_import, version_for};

use crate::format::{IMPORT, SWITCH};
use crate::records::Kind;
use cfi_type_table::{FUNC, TypeTable};

/// A version of records. The section begins with its word.
#[derive(Clone, Copy, Debug, PartialEq, Eq)]
pub enum RecordVersion {
    /// Word 1: functions have fixed arguments.
    One,
    /// Word 2: functions may have variable arguments.
    Two,
    /// Word 3: and branches may be imports.
    Three,
}

/// The version that takes what the others take.
pub const LATEST: RecordVersion = RecordVersion::Three;

/// The word of the version.
pub fn version_word(version: RecordVersion) -> u32
    ensures { result ≡ version_word version }
{
    match version {
        RecordVersion::One => 1,
        RecordVersion::Two => 2,
        RecordVersion::Three => 3,
    }
}

/// The version of the word. `None` where there is none.
pub fn version_of(word: u32) -> Option<RecordVersion>
    ensures { result ≡ version_of word }
{
    match word {
        1 => Some(RecordVersion::One),
        2 => Some(RecordVersion::Two),
        3 => Some(RecordVersion::Three),
        _ => None,
    }
}

fn is_func(types: &TypeTable, word: u32) -> bool
    ensures { result ≡ is_func types.now word }
{
    let nodes = types.nodes();
    let number = word as usize;
    number < nodes.len() && nodes[number].kind() == FUNC
}

/// Whether the word is the number of a node that is there and may be the type of a function or a branch.
pub fn is_type(version: RecordVersion, types: &TypeTable, word: u32) -> bool
    ensures { result ≡ is_type version types.now word }
{
    match version {
        RecordVersion::One => is_func(types, word),
        RecordVersion::Two | RecordVersion::Three => types.is_callable(word),
    }
}

/// The greatest kind of a branch.
pub fn last_kind(version: RecordVersion) -> u32
    ensures { result ≡ last_kind version }
{
    match version {
        RecordVersion::One | RecordVersion::Two => SWITCH,
        RecordVersion::Three => IMPORT,
    }
}

fn is_import(branch: &Kind) -> bool
    ensures { result ≡ is_import branch.now }
{
    match branch {
        Kind::Import { .. } => true,
        Kind::Call(_) | Kind::Tail(_) | Kind::Return | Kind::Switch(_) => false,
    }
}

fn has_import(branches: &[Kind]) -> bool
    ensures { result ≡ list_any is_import branches.now }
{
    branches.iter().any(|branch| is_import(branch))
}

/// The version in which records with these branches are written: 3 where one is an import, else 2.
pub fn version_for(branches: &[Kind]) -> RecordVersion
    ensures { result ≡ version_for branches.now }
{
    if has_import(branches) {
        RecordVersion::Three
    } else {
        RecordVersion::Two
    }
}
